//! Prints the graph of a job, line by line, for explanations and pictures: its tasks, and what their active dependences
//! name.
#![tactic(auto)]

mod dependence;
mod failure;
mod ill;
mod lines;
mod names;
mod no_task;
mod request;
mod task_lines;

use crate::failure::Failure;
use crate::lines::Lines;
use crate::request::{Request, request_of};
use crate::task_lines::{all_tasks, one_task};
use jdf_tree::Jdf;
use job_stages::{JobVerdict, judge_data, tree_of};
use plan_core::Plan;
use ptg_base::Seq;
use ptg_io::load;
use ptg_os::OsFiles;
use std::process::ExitCode;
use std::rt::{Env, Files};
use std::{env, io};

// What is printed if the words ask for nothing.
const USAGE: &str = "usage: job_graph JDF DATA MOST [CLASS,PARAMETER..]";

fn main(rt: HostRuntime) -> io::Result<ExitCode> {
    match graph(&rt) {
        Ok(()) => Ok(ExitCode::SUCCESS),
        Err(Failure::Full) => Ok(ExitCode::SUCCESS),
        Err(Failure::Usage) => {
            println!(rt; "{USAGE}")?;
            Ok(ExitCode::from(1))
        }
        Err(failure) => Ok(ExitCode::from(failure.code())),
    }
}

// Prints what the words ask for.
fn graph<R: Print + Files + Env + AllocGlobal>(rt: &R) -> Result<(), Failure> {
    let words: Vec<String> = env::args(rt)?.collect(rt.alloc())?;
    let request = request_of(rt.alloc(), words.as_slice())?;
    graph_of_files(rt, &request)
}

// Prints what is asked for of these files.
fn graph_of_files<R: Print + Files + AllocGlobal>(
    rt: &R,
    request: &Request,
) -> Result<(), Failure> {
    let text = bytes_of(rt, request.jdf)?;
    let data = bytes_of(rt, request.data)?;
    graph_of_texts(rt, request, text.as_slice(), data.as_slice())
}

// Prints what is asked for of these texts.
fn graph_of_texts<R: Print + AllocGlobal>(
    rt: &R,
    request: &Request,
    text: &[u8],
    data: &[u8],
) -> Result<(), Failure> {
    let tree = tree_of(rt.alloc(), text)?;
    match judge_data(rt.alloc(), &tree, data)? {
        JobVerdict::Jdf(_) => Err(Failure::JdfRefused),
        JobVerdict::Data(_) => Err(Failure::DataRefused),
        JobVerdict::Inconsistent(plan, _) => print(rt, request, &tree, &plan),
        JobVerdict::Consistent(matched, _) => print(rt, request, &tree, matched.plan()),
    }
}

// The bytes of a file.
fn bytes_of<R: Files + AllocGlobal>(rt: &R, name: &str) -> Result<Seq<u8>, Failure> {
    let mut files = OsFiles::new(rt, rt.alloc());
    Ok(load(rt.alloc(), &mut files, name)?)
}

// Prints what is asked for. If the limit ends it, the lines before the limit are printed all the same.
fn print<R: Print + AllocGlobal>(
    rt: &R,
    request: &Request,
    tree: &Jdf,
    plan: &Plan,
) -> Result<(), Failure> {
    let mut lines = Lines::new(rt.alloc(), io::writer(rt), request.most);
    let ended = match &request.task {
        Some(name) => one_task(&mut lines, tree, plan, name),
        None => all_tasks(&mut lines, tree, plan),
    };
    lines.flush()?;
    ended
}
