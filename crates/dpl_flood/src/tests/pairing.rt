//! A triangle of faces with a tail, whose faces are all odd: three of them fold before the fourth is met.

ghost use Rattle.std.specs.Prelude.{◌≡◌, ◌<◌, ◌^◌, All, IfOk, length};
ghost use Rattle.dpl_flood.specs.Flips.{AreOverChains};
ghost use Rattle.dpl_flood.specs.Starts.{AreSeats};
ghost use Rattle.dpl_flood.specs.States.{IsGround};

use crate::{Lent, NoMemory, Paired, pair_faces, steps_at};
use dpl_dual::{Cross, Dual};
use dpl_laminar::Steps;
use dpl_list::Items;
use std::alloc::Global;
use std::marker::Brand;
use std::sync::ledger::{Blank, Ledger};

/// Four odd faces, the first three of them near each other, and the fourth far from the third.
fn faces_with_tail(alloc: Global) -> Result<Dual, NoMemory>
    ensures ground { IfOk result IsGround }
    ensures seats { IfOk result (λ d. AreSeats d d.odd) }
    ensures many { IfOk result (λ d. length d.odd ≡ 4) }
    ensures near { IfOk result (λ d. AreOverChains d.crosses d.odd (λ s t. 2 ^ 51)) }
    ensures places { IfOk result (λ d. All (λ x. x.edge < 4) d.crosses) }
{
    let ways = [
        Cross {
            f: 0,
            g: 1,
            edge: 0,
            length: 2,
        },
        Cross {
            f: 1,
            g: 2,
            edge: 1,
            length: 2,
        },
        Cross {
            f: 2,
            g: 0,
            edge: 2,
            length: 2,
        },
        Cross {
            f: 2,
            g: 3,
            edge: 3,
            length: 10,
        },
    ];
    let all: &[u32] = &[0, 1, 2, 3];
    let same: &[u32] = &[0, 0, 0, 0];
    let crosses = Items::new(Vec::from_slice(alloc, &ways)?);
    let odd = Items::new(Vec::from_slice(alloc, all)?);
    let part = Items::new(Vec::from_slice(alloc, same)?);
    Ok(Dual {
        faces: 4,
        crosses,
        odd,
        part,
    })
}

/// The mates of the four faces, and which of the four edges are joined.
fn pairs_with_tail<L: Ledger>(
    alloc: Global,
    blank: Blank,
) -> Result<([u32; 4], [bool; 4]), NoMemory>
    requires name { blank.name ≡ L.name }
    requires parts { blank.parts ≡ L.parts }
    requires some { 0 < L.parts }
{
    let (book, share) = blank.open::<L>();
    let mut steps = Steps::new(book, share);
    let dual = faces_with_tail(alloc)?;
    let ways = steps_at(alloc, dual.crosses.as_slice(), dual.faces)?;
    let mut joined = [false; 4];
    let lent = Lent::new(alloc, &dual)?;
    let Paired { mate, .. } = pair_faces(
        alloc,
        &dual,
        &ways,
        dual.odd.as_slice(),
        lent,
        &mut joined,
        &mut steps,
    )?;
    let mates = [mate[0], mate[1], mate[2], mate[3]];
    Ok((mates, joined))
}

#[test]
fn three_faces_fold_before_the_fourth_is_met(rt: HostRuntime) -> Result<(), NoMemory> {
    let (mates, joined) = pairs_with_tail::<Brand>(rt.alloc(), Blank::new(1))?;
    assert_eq!(rt; mates, [1, 0, 3, 2]);
    assert_eq!(rt; joined, [true, false, false, true]);
    Ok(())
}
