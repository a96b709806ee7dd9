//! The lines of a script that declare devices, which stand before all others.
ghost use Rattle.std.specs.Prelude.{◌≡◌, ◌≤◌, IfOk, length};
ghost use Rattle.office_script.specs.Scripts.{declared_by, is_skipped};
ghost use Rattle.office_script.specs.Playing.{Opens};

use crate::command::event;
use crate::cutting::first_line;
use crate::device::{Declared, device, with_device};
use crate::input::SCRIPT_LIMIT;
use point_list::Site;
use std::alloc::{AllocError, Global};

/// What the lines that declare devices leave.
#[derive(Drop)]
pub(crate) enum Opening<'a> {
    /// The site, and the text from line `number` on.
    Ready {
        site: Site,
        rest: &'a [u8],
        number: u32,
    },
    /// The device of this line makes no site.
    Broken {
        number: u32,
    },
}

/// Whether a line is empty or a comment.
pub(crate) fn skips(line: &[u8]) -> bool
    ensures { result ≡ is_skipped line.now }
{
    line.is_empty() || line[0] == b'#'
}

/// The device that the line of a number declares which asks for nothing.
fn declared(alloc: Global, line: &[u8], number: u32) -> Result<Option<Declared>, AllocError>
    ensures { IfOk result (λ said. said ≡ declared_by number line.now) }
{
    if event(alloc, line, number)?.is_some() {
        return Ok(None);
    }
    device(alloc, line)
}

/// Reads the devices that stand before all other lines.
pub(crate) fn open_script<'a>(alloc: Global, script: &'a [u8]) -> Result<Opening<'a>, AllocError>
    requires { length script.now ≤ SCRIPT_LIMIT }
    ensures { IfOk result (Opens script.now) }
{
    let mut site = Site::new(Vec::new(alloc), Vec::new(alloc));
    let mut rest = script;
    let mut number: u32 = 1;
    while !rest.is_empty() {
        let (line, more) = first_line(rest);
        if skips(line) {
            rest = more;
            number += 1;
            continue;
        }
        let Some(said) = declared(alloc, line, number)? else {
            return Ok(Opening::Ready { site, rest, number });
        };
        site = with_device(alloc, site, said)?;
        if !site.is_sound() {
            return Ok(Opening::Broken { number });
        }
        rest = more;
        number += 1;
    }
    Ok(Opening::Ready { site, rest, number })
}
