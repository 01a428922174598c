// The lines with a name or a version, read.
ghost use Rattle.std.specs.Prelude.{◌≡◌, ◌≤◌, ◌<◌, length, IfOk};
ghost use Rattle.dpl_report.specs.Reading as reading;

use dpl_lex::Name;
use dpl_report::writing::{push_keep, push_layer, version_line};
use std::alloc::{AllocError as NoMemory, Global};

/// What stands between so many bytes and three.
fn between(front: usize, line: &[u8]) -> &[u8]
    requires { front ≤ 7 }
    ensures { result.now ≡ reading.between front line.now }
{
    if line.len() < front + 3 {
        &[]
    } else {
        &line[front..line.len() - 3]
    }
}

fn layer_from(bytes: &[u8]) -> Option<Name>
    ensures { result ≡ reading.layer_from bytes.now }
{
    if bytes.len() > 31 {
        return None;
    }
    Name::new(bytes)
}

/// The name in a layer line, of at most 31 bytes, `None` where the line is none. Its error is want
/// of memory.
pub fn layer_in(alloc: Global, line: &[u8]) -> Result<Option<Name>, NoMemory>
    ensures { IfOk result (λ o. o ≡ reading.item_layer line.now) }
{
    let Some(name) = layer_from(between(7, line)) else {
        return Ok(None);
    };
    let mut again = Vec::new(alloc);
    push_layer(&mut again, name.bytes())?;
    Ok(if again.as_slice() == line {
        Some(name)
    } else {
        None
    })
}

/// The name in a keep line, of at most 31 bytes, `None` where the line is none. Its error is want
/// of memory.
pub fn keep_in(alloc: Global, line: &[u8]) -> Result<Option<Name>, NoMemory>
    ensures { IfOk result (λ o. o ≡ reading.item_keep line.now) }
{
    let Some(name) = layer_from(between(6, line)) else {
        return Ok(None);
    };
    let mut again = Vec::new(alloc);
    push_keep(&mut again, name.bytes())?;
    Ok(if again.as_slice() == line {
        Some(name)
    } else {
        None
    })
}

/// Whether a version line tells the second version, `None` where the line is none.
pub fn version_in(line: &[u8]) -> Option<bool>
    ensures { result ≡ reading.item_version line.now }
{
    if version_line(true) == line {
        Some(true)
    } else if version_line(false) == line {
        Some(false)
    } else {
        None
    }
}
