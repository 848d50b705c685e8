// The right ends of the matches on both sides, worked out once for each match, before any position is tried.
#![tactic(auto)]

ghost use Rattle.std.specs.Prelude.{◌≤◌, length, take};
ghost use Rattle.refining.specs.Columns.{Ends, RightEnds};

// Left plus length, match by match. The lengths come in the front of the column that has the right ends on B then.
pub fn work_out(left_a: &[u32], left_b: &[u32], right_a: &mut [u32], right_b: &mut [u32])
    requires ends { Ends left_a.now (take (length left_a.now) right_b.old) }
    requires ends_2 { Ends left_b.now (take (length left_a.now) right_b.old) }
    requires left_a_in_bounds { length left_a.now ≤ length right_a.old }
    requires left_a_in_bounds_2 { length left_a.now ≤ length right_b.old }
    ensures on_a { RightEnds left_a.now (take (length left_a.now) right_b.old)
        (take (length left_a.now) right_a.new) }
    ensures on_b { RightEnds left_b.now (take (length left_a.now) right_b.old)
        (take (length left_a.now) right_b.new) }
{
    for k in 0..left_a.len() {
        let length = right_b[k];
        right_a[k] = left_a[k] + length;
        right_b[k] = left_b[k] + length;
    }
}
