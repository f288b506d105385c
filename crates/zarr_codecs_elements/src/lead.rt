//! The dimensions that an order moves.

ghost use Rattle.std.specs.Prelude.{◌≡◌, ◌≤◌, ◌-◌, length, drop};
ghost use Rattle.std.specs.List.{range_with_len};

/// How many dimensions come before those at the end that stay in place.
pub(crate) fn leading(order: &[usize]) -> usize
    ensures few { result ≤ length order.now }
    ensures rest { drop result order.now ≡ range_with_len result (length order.now - result) }
{
    let mut lead = order.len();
    while lead > 0 {
        let dimension = order[lead - 1];
        if dimension != lead - 1 {
            return lead;
        }
        lead -= 1;
    }
    lead
}
