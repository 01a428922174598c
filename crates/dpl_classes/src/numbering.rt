// The numbers of classes, in the order of their roots.
ghost use Rattle.std.specs.Prelude.{◌<◌, ◌^◌, length, IfOk};
ghost use Rattle.dpl_classes.specs.Roots.{Falls, AreFixed, AreNumbers};

use std::alloc::{AllocError as NoMemory, Global};

/// The number of each member's class, and how many classes there are. Classes stand in the order of their roots.
pub fn labels(alloc: Global, roots: &[u32]) -> Result<(Vec<u32>, u32), NoMemory>
    requires few { length roots.now < 2 ^ 32 }
    requires falls { Falls roots.now }
    requires fixed { AreFixed roots.now }
    ensures { IfOk result (λ p. AreNumbers roots.now p.0.items p.1) }
{
    let mut label = Vec::new(alloc);
    let mut count = 0u32;
    for i in 0..roots.len() {
        let root = roots[i] as usize;
        if root == i {
            label.push(count)?;
            count += 1;
        } else {
            let known = label[root];
            label.push(known)?;
        }
    }
    Ok((label, count))
}
