// The order of the ports around a node.
ghost use Rattle.std.specs.Prelude.{◌≡◌};
ghost use Rattle.dpl_sign.specs.PortOrder.{rise as rise_of, run as run_of, slope_cmp, port_cmp};

use crate::ports::Port;
use std::cmp::Ordering;

/// The side of a direction that grows as one turns counterclockwise.
fn rise(port: &Port) -> u64
    ensures { result ≡ rise_of port.now }
{
    if port.side % 4 == 0 { port.dy } else { port.dx }
}

/// The side of a direction that shrinks as one turns counterclockwise.
fn run(port: &Port) -> u64
    ensures { result ≡ run_of port.now }
{
    if port.side % 4 == 0 { port.dx } else { port.dy }
}

/// The order of the directions of two corners of one side.
fn slope_order(a: &Port, b: &Port) -> Ordering
    ensures { result ≡ slope_cmp a.now b.now }
{
    let first = u128::from(rise(a)) * u128::from(run(b));
    let second = u128::from(rise(b)) * u128::from(run(a));
    first.cmp(&second)
}

/// The order of the ports of one node, counterclockwise from its south-west corner. `ea` and `eb`
/// are the numbers of the edges that leave there.
pub fn port_order(a: &Port, ea: u32, b: &Port, eb: u32) -> Ordering
    ensures { result ≡ port_cmp a.now ea b.now eb }
{
    a.side
        .cmp(&b.side)
        .then_with(|| a.key.cmp(&b.key))
        .then_with(|| slope_order(a, b))
        .then_with(|| ea.cmp(&eb))
}
