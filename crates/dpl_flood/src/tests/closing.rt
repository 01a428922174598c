//! A row of four faces that are all odd: the second one comes to nothing between the tops on its two sides, and closes.

ghost use Rattle.std.specs.Prelude.{◌≡◌, ◌<◌, ◌^◌, All, IfOk, length};
ghost use Rattle.dpl_flood.specs.Flips.{AreOverChains};
ghost use Rattle.dpl_flood.specs.Starts.{AreSeats};
ghost use Rattle.dpl_flood.specs.States.{IsGround};

use crate::{Lent, NoMemory, Paired, pair_faces, steps_at};
use dpl_dual::{Cross, Dual};
use dpl_laminar::Steps;
use dpl_list::Items;
use std::alloc::Global;
use std::marker::Brand;
use std::sync::ledger::{Blank, Ledger};

/// Four odd faces in a row, each farther from the one before than that one from its own.
fn faces_in_row(alloc: Global) -> Result<Dual, NoMemory>
    ensures ground { IfOk result IsGround }
    ensures seats { IfOk result (λ d. AreSeats d d.odd) }
    ensures many { IfOk result (λ d. length d.odd ≡ 4) }
    ensures near { IfOk result (λ d. AreOverChains d.crosses d.odd (λ s t. 2 ^ 51)) }
    ensures places { IfOk result (λ d. All (λ x. x.edge < 3) d.crosses) }
{
    let ways = [
        Cross {
            f: 0,
            g: 1,
            edge: 0,
            length: 2,
        },
        Cross {
            f: 1,
            g: 2,
            edge: 1,
            length: 4,
        },
        Cross {
            f: 2,
            g: 3,
            edge: 2,
            length: 20,
        },
    ];
    let all: &[u32] = &[0, 1, 2, 3];
    let same: &[u32] = &[0, 0, 0, 0];
    let crosses = Items::new(Vec::from_slice(alloc, &ways)?);
    let odd = Items::new(Vec::from_slice(alloc, all)?);
    let part = Items::new(Vec::from_slice(alloc, same)?);
    Ok(Dual {
        faces: 4,
        crosses,
        odd,
        part,
    })
}

/// The mates of the four faces, and their tops.
fn tops_in_row<L: Ledger>(alloc: Global, blank: Blank) -> Result<([u32; 4], [u32; 4]), NoMemory>
    requires name { blank.name ≡ L.name }
    requires parts { blank.parts ≡ L.parts }
    requires some { 0 < L.parts }
{
    let (book, share) = blank.open::<L>();
    let mut steps = Steps::new(book, share);
    let dual = faces_in_row(alloc)?;
    let ways = steps_at(alloc, dual.crosses.as_slice(), dual.faces)?;
    let mut joined = [false; 3];
    let lent = Lent::new(alloc, &dual)?;
    let Paired { state, mate, .. } = pair_faces(
        alloc,
        &dual,
        &ways,
        dual.odd.as_slice(),
        lent,
        &mut joined,
        &mut steps,
    )?;
    let family = &state.family;
    let tops = [
        family.tops(0),
        family.tops(1),
        family.tops(2),
        family.tops(3),
    ];
    Ok(([mate[0], mate[1], mate[2], mate[3]], tops))
}

#[test]
fn a_single_closes(rt: HostRuntime) -> Result<(), NoMemory> {
    let (mates, tops) = tops_in_row::<Brand>(rt.alloc(), Blank::new(1))?;
    assert_eq!(rt; mates, [1, 0, 3, 2]);
    assert_eq!(rt; tops, [6, 6, 6, 3]);
    Ok(())
}
