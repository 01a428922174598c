// Where an edge leaves a node.
ghost use Rattle.std.specs.Prelude.{◌≡◌, ◌+◌, ◌<◌, ◌≤◌, pos, true, false};
ghost use Rattle.dpl_sign.specs.Sides.{is_corner};

/// The place on the border of a node at which an edge leaves it.
///
/// Counterclockwise, the places are 0 south-west, 1 south, 2 south-east, 3 east, 4 north-east,
/// 5 north, 6 north-west and 7 west. A side has a key, which rises counterclockwise, and no
/// direction. A corner has key 0 and the direction `(dx, dy)` in which the edge leaves.
#[derive(Clone, Copy, Debug)]
pub struct Port {
    pub side: u8,
    pub key: i64,
    pub dx: u64,
    pub dy: u64,
    pub ghost eight: { side ≤ 7 },
    pub ghost no_key: { is_corner side ≡ true → key ≡ pos 0 },
    pub ghost direction: { is_corner side ≡ true → 0 < dx + dy },
    pub ghost no_direction: { is_corner side ≡ false → dx + dy ≡ 0 },
}

impl Port {
    /// A place on the south, east, north or west side.
    pub fn on_side(side: u8, key: i64) -> Port
        requires eight { side ≤ 7 }
        requires side { is_corner side ≡ false }
        ensures side { result.side ≡ side }
        ensures key { result.key ≡ key }
        ensures no_direction { result.dx + result.dy ≡ 0 }
    {
        let (dx, dy) = (0, 0);
        Port { side, key, dx, dy }
    }

    /// A direction at a corner.
    pub fn at_corner(side: u8, dx: u64, dy: u64) -> Port
        requires eight { side ≤ 7 }
        requires corner { is_corner side ≡ true }
        requires direction { 0 < dx + dy }
        ensures side { result.side ≡ side }
        ensures no_key { result.key ≡ pos 0 }
        ensures dx { result.dx ≡ dx }
        ensures dy { result.dy ≡ dy }
    {
        let key = 0;
        Port { side, key, dx, dy }
    }
}
