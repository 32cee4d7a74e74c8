//! What the words of the command line ask for.

use crate::failure::Failure;
use std::alloc::Global;

/// A class by its name, with the values of parameters.
#[derive(Drop)]
pub struct TaskName<'a> {
    pub class: &'a str,
    pub params: Vec<i64>,
}

/// A request for the graph of a job, or for what concerns one task of it.
#[derive(Drop)]
pub struct Request<'a> {
    pub jdf: &'a str,
    pub data: &'a str,
    /// At most this many lines are printed.
    pub most: u64,
    pub task: Option<TaskName<'a>>,
}

/// What the words ask for. The first word is the program's name.
pub fn request_of<'a>(alloc: Global, words: &'a [String]) -> Result<Request<'a>, Failure> {
    let (jdf, data, most, task) = match words {
        [_, jdf, data, most] => (jdf, data, most, None),
        [_, jdf, data, most, task] => (jdf, data, most, Some(task_name(alloc, task.as_str())?)),
        _ => return Err(Failure::Usage),
    };
    Ok(Request {
        jdf: jdf.as_str(),
        data: data.as_str(),
        most: most.as_str().parse().map_err(|_| Failure::Usage)?,
        task,
    })
}

// A task as it is printed, `CLASS,PARAMETER..`.
fn task_name<'a>(alloc: Global, word: &'a str) -> Result<TaskName<'a>, Failure> {
    let mut fields = word.split(',');
    let class = fields.next().ok_or(Failure::Usage)?;
    let mut params = Vec::new(alloc);
    for field in fields {
        params.push(field.parse().map_err(|_| Failure::Usage)?)?;
    }
    Ok(TaskName { class, params })
}
