ghost use Rattle.std.specs.Prelude.{◌≡◌, ◌<◌};

use dpl_laminar::*;
use std::alloc::Global;
use std::marker::Brand;
use std::process::Abort;
use std::sync::ledger::{Blank, Ledger};

#[test]
fn three_members(rt: HostRuntime) -> Result<(), NoMemory> {
    made_and_taken_apart::<Brand, _>(&rt, rt.alloc(), Blank::new(1))
}

/// Three members, of which the first has value 4, are made one set and taken apart again. Where
/// memory is wanting for the set, the family answers as before.
fn made_and_taken_apart<L: Ledger, R: Abort>(
    rt: &R,
    alloc: Global,
    blank: Blank,
) -> Result<(), NoMemory>
    requires name { blank.name ≡ L.name }
    requires parts { blank.parts ≡ L.parts }
    requires some { 0 < L.parts }
{
    let (book, share) = blank.open::<L>();
    let mut steps = Steps::new(book, share);
    let mut family = Family::new(alloc, 3)?;
    family.raise(0, 4, &mut steps);
    let joins = [(0, 1), (1, 2), (2, 0)];
    match family.shrink(alloc, &[0, 1, 2], &joins, &mut steps) {
        Ok(set) => {
            assert_eq!(rt;
                (family.tops(0), family.tops(1), family.tops(2)),
                (set, set, set)
            );
            assert_eq!(rt; (family.value(set), family.holds(set, 2)), (0, true));
            assert_eq!(rt; family.child_after(0), (1, 0, 1));
            assert_eq!(rt; family.child_after(1), (2, 1, 2));
            assert_eq!(rt; family.child_after(2), (0, 2, 0));
            assert_eq!(rt; family.parent(1), Some(set));
            assert_eq!(rt; family.members(set), [0, 1, 2].as_slice());
            family.expand(set, &mut steps);
            assert_eq!(rt; (family.tops(0), family.tops(1), family.tops(2)), (0, 1, 2));
            Ok(())
        }
        Err(no_memory) => {
            assert_eq!(rt; (family.tops(0), family.tops(1), family.tops(2)), (0, 1, 2));
            assert_eq!(rt;
                (family.value(0), family.value(1), family.value(2)),
                (4, 0, 0)
            );
            Err(no_memory)
        }
    }
}
