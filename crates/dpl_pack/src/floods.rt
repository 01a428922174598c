//! The moats of a flood.

ghost use Rattle.std.specs.Prelude.{◌≡◌, length, IfOk};
ghost use Rattle.dpl_laminar.specs.Storing.{sets_of};
ghost use Rattle.dpl_dual.specs.Duals.{CameFromDual};
ghost use Rattle.dpl_pack.specs.Moats.{AreTerminals, AreMoats};
ghost use Rattle.dpl_pack.specs.Floods.{IsFloodOf};

use crate::held::Held;
use crate::laid::Moats;
use crate::spots::spots_of;
use crate::surfaces::{Surface, lay};
use crate::tables::Table;
use dpl_dual::Dual;
use dpl_laminar::Family;
use std::alloc::{AllocError, Global};

/// The moats of a family over the odd faces of one part, by the faces that its members hold. Member i
/// stands for the face `terminals[i]`. Where no way is shorter than the points of its faces are apart,
/// no load is above any chain, and no moats are more on a way than it is long. Nothing is searched: it
/// takes time for what each set's members hold, and memory for what is near the sets that have a value.
pub fn moats_of(
    alloc: Global,
    dual: &Dual,
    terminals: &[u32],
    family: &Family,
    held: &[Held],
) -> Result<Moats, AllocError>
    requires dual { CameFromDual dual.now }
    requires terminals { AreTerminals dual.now terminals.now }
    requires members { (sets_of family.now).size ≡ length terminals.now }
    requires flood { IsFloodOf dual.now terminals.now (sets_of family.now) held.now }
    ensures moats { IfOk result (λ m. AreMoats dual.now terminals.now (sets_of family.now) m) }
{
    let _top = family.tops(0);
    let n = terminals.len() as u32;
    let table = Table::new(alloc, family, n)?;
    let spots = spots_of(alloc, held, n)?;
    let surface = Surface {
        ends: &table.ends,
        values: &table.values,
        spots: &spots,
    };
    let moats = lay(alloc, &surface)?;
    Ok(moats)
}
