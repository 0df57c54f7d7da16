//! Plays a script on a new adapter.
ghost use Rattle.std.specs.Prelude.{◌↔◌, IsTrue};
ghost use Rattle.std.specs.List.{All};
ghost use Rattle.bench.specs.Bench.{Played, Agrees};

use crate::bench::Bench;
use crate::script::{Check, Line};
use std::alloc::{AllocError, Global};

/// Does what the script says, and answers what came at each reading.
pub fn play(heap: Global, lines: &[Line]) -> Result<Vec<Check>, AllocError>
    ensures { Played lines.now result }
{
    let mut bench = Bench::new();
    let mut checks = Vec::new(heap);
    for line in lines {
        match *line {
            Line::Do(act) => bench.act(act),
            Line::Comes(should) => {
                let came = bench.look(should);
                checks.push(Check { came, should })?;
            }
        }
    }
    Ok(checks)
}

/// Whether all came as they should.
pub fn all_agree(checks: &[Check]) -> bool
    ensures { IsTrue result ↔ All Agrees checks.now }
{
    checks.iter().all(|check| check.agrees())
}
