//! The values that crates share: texts, sequences, tasks, edges, places and tiles, with their order; refusals; decimal
//! digits and indices; the spelling of names; limits. Contracts see the types as plain lists and numbers.
#![tactic(auto)]

mod digits;
mod edge;
mod index;
mod laws;
mod limits;
mod memory;
mod name;
mod place;
mod refusal;
mod seq;
mod task;
mod text;
mod tile;

pub use digits::decimal;
pub use edge::{Edge, Item, WriteBack};
pub use index::index_in;
pub use laws::{items_compare_field_by_field, tasks_compare_in_task_order};
pub use limits::{
    MOST_BYTES, MOST_EDGES, MOST_FLOWS, MOST_LOCALS, MOST_NUMBER, MOST_PARAMS, MOST_RANKS,
    MOST_ROWS, MOST_SHARDS, MOST_TASKS, MOST_VARIABLES, MOST_WORKERS, USUAL_SHARDS, USUAL_WORKERS,
};
pub use memory::OutOfMemory;
pub use name::{is_letter, is_name, is_part};
pub use place::Place;
pub use refusal::Refusal;
pub use seq::Seq;
pub use task::TaskId;
pub use text::Text;
pub use tile::{MOST_IN_PLACE, Tile};

#[cfg(test)]
mod tests {
    use super::*;
    use std::cmp::Ordering;
    use std::hash::{DefaultHasher, Hash, Hasher};
    use std::test::Fail;

    /// The hash of a value, by std's default hasher.
    fn hash_of<T: Hash>(value: &T) -> u64 {
        let mut hasher = DefaultHasher::new();
        value.hash(&mut hasher);
        hasher.finish()
    }

    #[test]
    fn texts_and_rows_keep_what_they_are_given(rt: HostRuntime) -> Result<(), Fail> {
        let alloc = rt.alloc();
        assert_eq!(rt; Text::of(alloc, b"potrf")?.bytes(), b"potrf".as_slice());
        let mut row = Seq::of(vec![in alloc; 5u32]?);
        row.push(6)?;
        row.append(&[7, 8])?;
        row.set(0, 4);
        assert_eq!(rt; row.as_slice(), [4, 6, 7, 8].as_slice());
        assert_eq!(rt; row.len(), 4);
        assert_eq!(rt; *row.get(2), 7);
        assert!(rt; Seq::<u32>::new(alloc).is_empty());
        Ok(())
    }

    #[test]
    fn tasks_places_and_tiles_keep_what_they_are_given(rt: HostRuntime) -> Result<(), Fail> {
        let alloc = rt.alloc();
        let task = TaskId::new(3, &[-1, 2]);
        assert_eq!(rt; task.class(), 3);
        assert_eq!(rt; task.params(), [-1, 2].as_slice());
        let place = Place {
            coll: 0,
            i: -1,
            j: 2,
        };
        let next = Place { i: 0, ..place };
        assert!(rt; place < next);
        let mut tile = Tile::zeros(alloc, 3)?;
        tile.set(1, -7);
        let copy = tile.copy(alloc)?;
        tile.set(1, 9);
        assert_eq!(rt; copy.as_slice(), [0, -7, 0].as_slice());
        assert_eq!(rt; (tile.get(1), copy.get(1), copy.len()), (9, -7, 3));
        Ok(())
    }

    /// Whether `a` compares to `b` like this, and `b` to `a` the other way; they are equal, and have one hash, exactly
    /// when the comparison says so.
    fn compare_like(a: &TaskId, b: &TaskId, answer: Ordering) -> bool {
        a.cmp(b) == answer
            && b.cmp(a) == answer.reverse()
            && a.partial_cmp(b) == Some(answer)
            && (a == b) == answer.is_eq()
            && (hash_of(a) == hash_of(b)) == answer.is_eq()
    }

    #[test]
    fn tasks_are_in_task_order(rt: HostRuntime) -> Result<(), Fail> {
        let rows: [((u32, &[i64]), (u32, &[i64]), Ordering); 6] = [
            ((1, &[9]), (2, &[-9]), Ordering::Less),
            ((1, &[-1]), (1, &[0]), Ordering::Less),
            ((1, &[3]), (1, &[2, 5]), Ordering::Greater),
            ((1, &[2]), (1, &[2, -5]), Ordering::Less),
            ((0, &[]), (0, &[]), Ordering::Equal),
            ((4, &[7, -8]), (4, &[7, -8]), Ordering::Equal),
        ];
        for ((class, params), (other, others), answer) in rows {
            assert!(rt; params.len() <= 8 && others.len() <= 8);
            let (a, b) = (TaskId::new(class, params), TaskId::new(other, others));
            assert!(rt; compare_like(&a, &b, answer));
        }
        Ok(())
    }

    /// The edge from flow 0 of task 1(2) to this flow of task 3(4).
    fn edge_into(in_flow: u8) -> Edge {
        Edge {
            from: TaskId::new(1, &[2]),
            out_flow: 0,
            to: TaskId::new(3, &[4]),
            in_flow,
        }
    }

    /// The write-back of flow 0 of task 1(2) at this column of row 5 of collection 0.
    fn write_at(j: i64) -> WriteBack {
        WriteBack {
            from: TaskId::new(1, &[2]),
            flow: 0,
            place: Place { coll: 0, i: 5, j },
        }
    }

    #[test]
    fn items_are_in_order(rt: HostRuntime) -> Result<(), Fail> {
        assert!(rt; edge_into(0) < edge_into(1));
        assert!(rt; write_at(-1) < write_at(0));
        assert!(rt; Item::Edge(edge_into(9)) < Item::Write(write_at(-1)));
        let (edge, same) = (Item::Edge(edge_into(3)), Item::Edge(edge_into(3)));
        assert!(rt; edge == same && edge != Item::Edge(edge_into(1)));
        assert_eq!(rt; hash_of(&edge), hash_of(&same));
        tasks_compare_in_task_order();
        items_compare_field_by_field();
        Ok(())
    }

    #[test]
    fn texts_are_in_the_order_of_their_bytes(rt: HostRuntime) -> Result<(), Fail> {
        let alloc = rt.alloc();
        let gemm = Text::of(alloc, b"GEMM")?;
        assert!(rt; gemm == Text::of(alloc, b"GEMM")?);
        assert_eq!(rt; hash_of(&gemm), hash_of(&Text::of(alloc, b"GEMM")?));
        assert!(rt; gemm < Text::of(alloc, b"GEMMS")?);
        assert!(rt; Text::of(alloc, b"POTRF")? > gemm);
        Ok(())
    }

    #[test]
    fn tiles_of_each_length_keep_what_they_are_given(rt: HostRuntime) -> Result<(), Fail> {
        let alloc = rt.alloc();
        let rows: [&[i64]; 4] = [&[], &[4, 0, -6], &[4, 0, -6, 1], &[4, 0, -6, 1, 9]];
        for row in rows {
            assert!(rt; row.len() <= 5);
            let n = row.len() as u32;
            let mut tile = Tile::zeros(alloc, n)?;
            for at in 0..n {
                assert!(rt; at < tile.len() && (at as usize) < row.len());
                tile.set(at, row[at as usize]);
            }
            let mut copy = Tile::zeros(alloc, n)?;
            assert!(rt; copy.len() == n && tile.len() == n);
            copy.copy_from(&tile);
            assert_eq!(rt; copy.as_slice(), row);
            assert_eq!(rt; copy.copy(alloc)?.as_slice(), row);
        }
        Ok(())
    }

    #[test]
    fn a_tile_takes_over_another(rt: HostRuntime) -> Result<(), Fail> {
        let alloc = rt.alloc();
        let mut from = Tile::zeros(alloc, 3)?;
        from.set(0, 4);
        from.set(2, -6);
        let mut tile = Tile::zeros(alloc, 3)?;
        tile.set(1, 5);
        tile.copy_from(&from);
        assert_eq!(rt; tile.as_slice(), [4, 0, -6].as_slice());
        assert_eq!(rt; from.as_slice(), [4, 0, -6].as_slice());
        Ok(())
    }
}
