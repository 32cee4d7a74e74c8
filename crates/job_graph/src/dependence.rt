//! Where a dependence of a plan stands in the text.

use jdf_tree::{ClassTree, FlowTree, Jdf};
use term_core::Direction;
use type_rules::first_spot;

/// The number of a dependence among all of its flow, from 1, and the line of its first target.
#[derive(Clone, Copy)]
pub struct InText {
    pub number: usize,
    pub line: u32,
}

/// The class with this number.
pub fn class_of(tree: &Jdf, class: u32) -> Option<&ClassTree> {
    tree.classes.as_slice().get(class as usize)
}

/// Where the dependence with this number stands among those of its direction.
pub fn in_text(flow: &FlowTree, direction: Direction, wanted: usize) -> Option<InText> {
    let mut left = wanted;
    for (index, dependence) in flow.deps.as_slice().iter().enumerate() {
        if dependence.direction == direction {
            if left == 0 {
                return Some(InText {
                    number: index.saturating_add(1),
                    line: first_spot(&dependence.yes).line,
                });
            }
            left -= 1;
        }
    }
    None
}
