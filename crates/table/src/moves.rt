// Questions about the moves of one state, answered by a loop over them and told of the relation alone.
ghost use Rattle.std.specs.Prelude.{◌≡◌, false, slice_index_or};
ghost use Rattle.table.specs.Moves.{some_move, every_move};

use crate::Table;

// Whether some move of s goes into the set.
pub fn has_move_into<T: Table>(table: &T, set: &[bool; 1024], s: usize) -> bool
    ensures { result ≡ some_move (T.Table.meaning table.now) s (λ t. slice_index_or set.now t false) }
{
    // k is the number of a move; in a closure of `any` the bound of the index was left open
    for k in 0..table.move_count(s) {
        if set[table.target(s, k)] {
            return true;
        }
    }
    false
}

// Whether every move of s goes into the set. The negation of `has_move_into` for the set's complement, which
// no caller has.
pub fn all_moves_into<T: Table>(table: &T, set: &[bool; 1024], s: usize) -> bool
    ensures { result ≡ every_move (T.Table.meaning table.now) s (λ t. slice_index_or set.now t false) }
{
    let moves = table.move_count(s);
    for k in 0..moves {
        if !set[table.target(s, k)] {
            return false;
        }
    }
    true
}
