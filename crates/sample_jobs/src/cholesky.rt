//! The made jobs of tiled Cholesky factorizations.

use crate::Job;
use job_gen::JDF;
use ptg_base::OutOfMemory;
use std::alloc::Global;

// The data of this number of rows of tiles.
macro_rules! data {
    ($rows:literal) => {
        concat!("elems,3\nint,NT,", $rows, "\ncoll,D,", $rows, ",", $rows, "\n")
    };
}

/// The made job with four rows of tiles. From one tile to another go 20 edges.
pub fn cholesky_4() -> Job {
    Job {
        name: "cholesky 4",
        jdf: JDF,
        data: data!("4").as_bytes(),
    }
}

/// The made job with twenty rows of tiles.
pub fn cholesky_20() -> Job {
    Job {
        name: "cholesky 20",
        jdf: JDF,
        data: data!("20").as_bytes(),
    }
}

// An extern block, an option and comments.
const HEAD: &str = "extern \"C\" %{
#include <stdio.h>
%}
%option no_taskpool_instance = true
/* tiled Cholesky */ // lower
";

// The properties that are added to a line of the made JDF.
fn properties(line: &str) -> &'static str {
    match line {
        "D" => " [type = \"parsec_data_collection_t*\"]",
        "NT" => " [type = int]",
        "potrf(k)" => " [high_priority = on]",
        "     -> (n == k+1) ? C trsm(n, m) : C gemm(k+1, m, n)" => " [type = DEFAULT]",
        _ => "",
    }
}

/// The made JDF with an extern block, an option, comments and properties, which change nothing.
pub fn decorated_cholesky(alloc: Global) -> Result<String, OutOfMemory> {
    let mut text = String::from_str(alloc, HEAD)?;
    for line in str::from_utf8(JDF).unwrap_or("").lines() {
        text.push_str(line)?;
        text.push_str(properties(line))?;
        text.push('\n')?;
    }
    Ok(text)
}

#[cfg(test)]
mod tests {
    use super::*;
    use std::test::Fail;

    #[test]
    fn four_lines_are_decorated(rt: HostRuntime) -> Result<(), Fail> {
        let text = decorated_cholesky(rt.alloc())?;
        // The made JDF has 1,040 bytes, and 102 come before it.
        assert_eq!(rt; text.len(), 1040 + 102 + 37 + 13 + 21 + 17);
        for line in [
            "\nD [type = \"parsec_data_collection_t*\"]\n",
            "\nNT [type = int]\n",
            "\npotrf(k) [high_priority = on]\n",
            " : C gemm(k+1, m, n) [type = DEFAULT]\n",
        ] {
            assert!(rt; text.contains(line));
        }
        Ok(())
    }
}
