//! The lines of tasks that trapped or wait.

ghost use Rattle.std.specs.Prelude.{◌≡◌, [], slice_index_or};
ghost use Rattle.report_text.specs.Rows.{cause_text, trap_words};
ghost use Rattle.report_text.specs.Printed.{trap_line, wait_line};

use crate::fields::{Field, put_line};
use crate::pieces::Pieces;
use crate::row_list::Row;
use flow_meaning::{TrapRow, WaitRow};
use plan_core::{Plan, class_name};
use ptg_base::Text;
use ptg_io::{Failed, Sink};
use term_core::Trap;

impl Row for TrapRow {
    ghost lines = { trap_line };

    fn put<'a, O: Sink>(
        &'a self,
        sink: &mut O,
        out: &mut Pieces,
        plan: &'a Plan,
    ) -> Result<(), Failed> {
        let class = self.task.class();
        let name = Field::Word(class_name(plan, class));
        let params = Field::Integers(self.task.params());
        let cause = Field::Word(cause_text(trap_words(plan, class), self.cause));
        put_line(sink, out, b"trap", &[name, params, cause])
    }
}

// The trap words of the class with this number; none if there is no such class.
fn trap_words(plan: &Plan, class: u32) -> &[Text]
    ensures { result.now ≡ trap_words plan.now class }
{
    match plan.classes.as_slice().get(class as usize) {
        Some(class) => class.trap_words.as_slice(),
        None => &[],
    }
}

// The word with this number among these; the empty text if there is no such word.
fn trap_word(words: &[Text], n: u32) -> &[u8]
    ensures { result.now ≡ slice_index_or words.now n [] }
{
    match words.get(n as usize) {
        Some(word) => word.bytes(),
        None => b"",
    }
}

// The text of a cause, in a class with these trap words.
fn cause_text(words: &[Text], trap: Trap) -> &[u8]
    ensures { result.now ≡ cause_text words.now trap }
{
    match trap {
        Trap::Overflow => b"overflow",
        Trap::Divide => b"divide",
        Trap::Index => b"index",
        Trap::Absent => b"absent",
        Trap::Budget => b"budget",
        Trap::Word(n) => trap_word(words, n),
    }
}

impl Row for WaitRow {
    ghost lines = { wait_line };

    fn put<'a, O: Sink>(
        &'a self,
        sink: &mut O,
        out: &mut Pieces,
        plan: &'a Plan,
    ) -> Result<(), Failed> {
        let fields = [
            Field::Word(class_name(plan, self.task.class())),
            Field::Integers(self.task.params()),
            Field::Number(u64::from(self.arrived)),
            Field::Number(u64::from(self.goal)),
        ];
        put_line(sink, out, b"wait", &fields)
    }
}
