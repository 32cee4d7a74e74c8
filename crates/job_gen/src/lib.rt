//! The texts of a made job: a graph of the shape of a tiled Cholesky factorization, for 1 to 96 rows of tiles.
#![tactic(auto)]

ghost use Rattle.std.specs.Prelude.{◌≡◌, ◌≤◌, IfOk};
ghost use Rattle.ptg_base.specs.Limits.{most_rows};
ghost use Rattle.job_gen.specs.Job.{jdf_text, data_text};

use ptg_base::{OutOfMemory, Text};
use std::alloc::Global;

/// The job's JDF. The number of rows is its global NT, so the text is the same for every number.
pub const JDF: &[u8] = b"D
NT

potrf(k)
k = 0 .. NT-1
: D(k, k)
RW T <- (k == 0) ? D(k, k) : T herk(k-1, k)
     -> T trsm(k, k+1 .. NT-1)
     -> D(k, k)
; NT - k
BODY
T[0] = T[0] + 1; T[1] = T[1] + k; T[2] = 1;
END

trsm(k, m)
k = 0 .. NT-2
m = k+1 .. NT-1
: D(m, k)
READ T <- T potrf(k)
RW C <- (k == 0) ? D(m, k) : C gemm(k-1, m, k)
     -> A herk(k, m)
     -> A gemm(k, m, k+1 .. m-1)
     -> B gemm(k, m+1 .. NT-1, m)
     -> D(m, k)
BODY
if (T[2] != 1) { trap order; }
C[0] = C[0] + 1; C[1] = C[1] + k; C[2] = 1;
END

herk(k, m)
k = 0 .. NT-2
m = k+1 .. NT-1
: D(m, m)
READ A <- C trsm(k, m)
RW T <- (k == 0) ? D(m, m) : T herk(k-1, m)
     -> (m == k+1) ? T potrf(m) : T herk(k+1, m)
BODY
if (A[2] != 1) { trap order; }
T[0] = T[0] + 1; T[1] = T[1] + k;
END

gemm(k, m, n)
k = 0 .. NT-3
m = k+2 .. NT-1
n = k+1 .. m-1
: D(m, n)
READ A <- C trsm(k, m)
READ B <- C trsm(k, n)
RW C <- (k == 0) ? D(m, n) : C gemm(k-1, m, n)
     -> (n == k+1) ? C trsm(n, m) : C gemm(k+1, m, n)
BODY
if (A[2] + B[2] != 2) { trap order; }
C[0] = C[0] + 1; C[1] = C[1] + k;
END
";

/// The job of a lower triangle of `n` rows of tiles: its JDF text and its data.
pub fn make(alloc: Global, n: u32) -> Result<(Text, Text), OutOfMemory>
    requires { (1 ≤ n) × (n ≤ most_rows) }
    ensures jdf { IfOk result (λ (jdf, data_file). jdf ≡ jdf_text) }
    ensures data_file { IfOk result (λ (jdf, data_file). data_file ≡ data_text n) }
{
    let jdf = Text::of(alloc, JDF)?;
    let records = format!(in alloc; "elems,3\nint,NT,{n}\ncoll,D,{n},{n}\n")?;
    Ok((jdf, Text::of(alloc, records.as_bytes())?))
}

#[cfg(test)]
mod tests {
    use super::*;
    use ptg_base::MOST_ROWS;
    use std::test::Fail;

    #[test]
    fn the_texts_are_those_of_the_job(rt: HostRuntime) -> Result<(), Fail> {
        let rows: [(u32, &[u8]); 3] = [
            (1, b"elems,3\nint,NT,1\ncoll,D,1,1\n"),
            (4, b"elems,3\nint,NT,4\ncoll,D,4,4\n"),
            (96, b"elems,3\nint,NT,96\ncoll,D,96,96\n"),
        ];
        for (n, records) in rows {
            assert!(rt; 1 <= n && n <= MOST_ROWS);
            let (jdf, data) = make(rt.alloc(), n)?;
            assert_eq!(rt; data.bytes(), records);
            assert_eq!(rt; jdf.bytes().len(), 1040);
            assert!(rt;
                jdf.bytes()
                    .starts_with(b"D\nNT\n\npotrf(k)\nk = 0 .. NT-1\n")
            );
            assert!(rt;
                jdf.bytes()
                    .ends_with(b"\nC[0] = C[0] + 1; C[1] = C[1] + k;\nEND\n")
            );
        }
        Ok(())
    }
}
