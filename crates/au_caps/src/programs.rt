//! The report of a program.

ghost use Rattle.std.specs.Prelude.{◌≡◌, IfOk, List, Ok, length};
ghost use Rattle.au_caps_lists.specs.Bodies.{all_bodied};
ghost use Rattle.au_caps.specs.Reports.{IsReportOf};
ghost use Rattle.au_caps_lists.specs.Views.{AreWithin, bodies_said};
ghost use Rattle.au_caps.specs.Views.{AreLabelled, IsWebOf};
ghost use Rattle.au_caps_types.specs.Views.{IsReaching};
ghost use Rattle.au_modules.specs.Slots as slots;
ghost use Rattle.au_noting_programs.specs.Faults.{noting_of};
ghost use Rattle.au_typing.specs.Trees.{NotedParts};

use crate::edges::add_body;
use crate::rows::rows_of;
use crate::webs::Web;
use au_base::{Memory, Sequence};
use au_caps_lists::{Body, bodies_of, params_of};
use au_caps_text::{Report, spread};
use au_caps_types::{Reaching, reaching_of};
use au_graphs::Graph;
use au_imports::Resolved;
use au_noting_programs::NotedProgram;
use std::alloc::Global;

/// What leads to what, by the numbers of the bodies.
fn web_of(
    alloc: Global,
    program: &Resolved,
    reaching: &Reaching,
    bodies: &Vec<Body>,
) -> Result<Web, Memory>
    requires { AreWithin (slots.modules program.now) (bodies_said bodies.now.items) }
    ensures { IfOk result (IsWebOf (slots.modules program.now) reaching.now (length bodies.now.items)
        (bodies_said bodies.now.items)) }
{
    let mut web = Web::new(alloc, bodies.len());
    for (own, one) in bodies.iter().enumerate() {
        let params = params_of(alloc, one.generics)?;
        add_body(alloc, &mut web, program, reaching, &params, one, own)?;
    }
    Ok(web)
}

/// The places of the heads that come to the numbers of bodies.
fn labels_of(
    alloc: Global,
    program: &Resolved,
    reaching: &Reaching,
    bodies: &Vec<Body>,
) -> Result<Graph, Memory>
    requires within { AreWithin (slots.modules program.now) (bodies_said bodies.now.items) }
    requires reached { IsReaching (slots.modules program.now) reaching.now }
    ensures { IfOk result (λ made. (noted : List NotedParts) → bodies_said bodies.now.items ≡ all_bodied noted
        → AreLabelled (slots.modules program.now) noted reaching.now (bodies_said bodies.now.items) made) }
{
    let web = web_of(alloc, program, reaching, bodies)?;
    let graph = web.graph(alloc)?;
    let labels = web.labels(alloc, reaching.len())?;
    spread(alloc, &graph, &labels)
}

/// The report of bodies.
fn report_of(
    alloc: Global,
    program: &Resolved,
    reaching: &Reaching,
    bodies: &Vec<Body>,
) -> Result<Report, Memory>
    requires within { AreWithin (slots.modules program.now) (bodies_said bodies.now.items) }
    requires reached { IsReaching (slots.modules program.now) reaching.now }
    ensures { IfOk result (λ report. (noted : List NotedParts) → bodies_said bodies.now.items
        ≡ all_bodied noted
        → IsReportOf (slots.modules program.now) noted report) }
{
    let made = labels_of(alloc, program, reaching, bodies)?;
    let rows = rows_of(alloc, program, reaching, &made, bodies)?;
    Ok(Report {
        rows: Sequence::from_vec(rows),
    })
}

/// What the functions and methods of a program can do with capabilities: of each, in the order of the text,
/// which capabilities it can make, which its variables can hold, and which it can hand on.
///
/// It takes time for each call, each written type and each argument once for each head.
///
/// # Errors
///
/// Only for want of memory.
pub fn caps_report(alloc: Global, noted: &NotedProgram) -> Result<Report, Memory>
    ensures { IfOk result (λ report. (parts : List NotedParts)
        × (noting_of (slots.modules noted.now) ≡ Ok parts)
        × IsReportOf (slots.modules noted.now) parts report) }
{
    let program = noted.program();
    let reaching = reaching_of(alloc, program)?;
    let bodies = bodies_of(alloc, noted.modules())?;
    report_of(alloc, program, &reaching, &bodies)
}
