//! The messages of a task that has run.

ghost use Rattle.std.specs.Prelude.{◌≡◌, ◌+◌, ◌<◌, ◌≤◌, ℕ, Ok, Some, cond, length, nat_eq, option_map};
ghost use Rattle.std.specs.Map.{lookup};
ghost use Rattle.std.specs.Option.{option_copied};
ghost use Rattle.ptg_base.specs.Limits.{most_edges};
ghost use Rattle.indexmap.specs.IndexMap.{spare};
ghost use Rattle.flow_meaning.specs.Ending.{output_tile};
ghost use Rattle.task_run.specs.Bench.{HoldsOutputs};
ghost use Rattle.rank_core.specs.Keeping.{IsMailOf};
ghost use Rattle.rank_core.specs.RunningTasks.{AreBlank, IsRunningTask, after, before, data_of, its_edges_between};
ghost use Rattle.rank_core.specs.RunningTasks.{plan_of, task_of};

use crate::mail::Mail;
use crate::message::Message;
use crate::running_task::RunningTask;
use ptg_base::Tile;
use task_run::Bench;

// The message with the numbers of this tile.
fn filled(message: Message, tile: Option<&Tile>) -> Message
    requires { option_map length message.tile ≡ option_map length (option_copied tile) }
    ensures { result ≡ record { edge = message.edge; tile = option_copied tile.entry } }
{
    let Message { edge, tile: blank } = message;
    let Some(mut copy) = blank else {
        return Message { edge, tile: None };
    };
    copy.copy_from(tile.unwrap());
    Message {
        edge,
        tile: Some(copy),
    }
}

// Posts a message with the tile that its task has left on the bench. There is room for it.
fn post(mail: &mut Mail, bench: &Bench, message: Message)
    requires room { 0 < spare mail.old.under_way }
    requires at_most { mail.old.sent < most_edges }
    requires shape { option_map length message.tile
        ≡ option_map length (output_tile (Some (Ok bench.now.tiles)) message.edge.out_flow) }
    ensures table { (q : ℕ)
        → lookup (nat_eq q) mail.new.under_way.entries
        ≡ cond (nat_eq mail.old.sent q)
        (Some
        (record {
          edge = message.edge;
          tile = output_tile (Some (Ok bench.now.tiles)) message.edge.out_flow;
        }))
        (lookup (nat_eq q) mail.old.under_way.entries) }
    ensures sent { mail.new.sent ≡ mail.old.sent + 1 }
    ensures room { spare mail.old.under_way ≤ spare mail.new.under_way + 1 }
{
    let flow = message.edge.out_flow;
    let message = filled(message, bench.tile(flow));
    let _none = mail.under_way.insert(mail.sent, message).unwrap();
    mail.sent += 1;
}

// Posts the messages of a running task, which has outputs. There is room for them.
pub(crate) fn post_all(at: &RunningTask, mail: &mut Mail, bench: &Bench, messages: Vec<Message>)
    requires runs { IsRunningTask at.now }
    requires tiles { HoldsOutputs (plan_of at.now) (data_of at.now) (task_of at.now) bench.now }
    requires blank { AreBlank (plan_of at.now) (its_edges_between at.now) messages.items }
    requires mail { IsMailOf (before at.now) mail.old }
    requires room { length messages.items ≤ spare mail.old.under_way }
    ensures { IsMailOf (after at.now) mail.new }
{
    for message in messages {
        post(mail, bench, message);
    }
}
