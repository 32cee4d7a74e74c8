//! The lines of the tasks of a chain or a cycle, and of the levels of tasks.

ghost use Rattle.report_text.specs.Found.{level_line, link_line};

use crate::fields::{Field, put_line};
use crate::pieces::Pieces;
use crate::row_list::Row;
use plan_core::{Plan, class_name};
use ptg_base::TaskId;
use ptg_io::{Failed, Sink};

impl Row for TaskId {
    ghost lines = { link_line };

    fn put<'a, O: Sink>(
        &'a self,
        sink: &mut O,
        out: &mut Pieces,
        plan: &'a Plan,
    ) -> Result<(), Failed> {
        let name = Field::Word(class_name(plan, self.class()));
        put_line(sink, out, b"link", &[name, Field::Integers(self.params())])
    }
}

impl Row for (TaskId, u64) {
    ghost lines = { level_line };

    fn put<'a, O: Sink>(
        &'a self,
        sink: &mut O,
        out: &mut Pieces,
        plan: &'a Plan,
    ) -> Result<(), Failed> {
        let fields = [
            Field::Word(class_name(plan, self.0.class())),
            Field::Integers(self.0.params()),
            Field::Number(self.1),
        ];
        put_line(sink, out, b"level", &fields)
    }
}
