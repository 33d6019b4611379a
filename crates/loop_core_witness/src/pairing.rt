//! Finding the least pair of iterations that fails a test.

ghost use Rattle.std.specs.Prelude.{◌≡◌, IfOk};
ghost use Rattle.bpf_verify_sound.specs.Soundness.{OverApproximatesCall};
ghost use Rattle.loop_core_model.specs.declared.loop_test.Test.TheVariants.{Lrpd, Flow};
ghost use Rattle.loop_core_witness.specs.{Breaks.{IsBreak}, Searches.{IsSearch, FindsPair}, Surveys.{IsSurvey}};
ghost use Rattle.loop_core_witness.specs.Witnesses.{Explains};

use crate::counting::counted_by;
use crate::finding::Search;
use crate::kind::Kind;
use crate::place::Place;
use crate::survey::Survey;
use crate::witness::Witness;
use array_maps::Maps;
use bpf_step::LoopCall;
use bpf_verify::Verified;
use loop_core_model::Test;
use std::alloc::{AllocError, Global};

/// The least pair by the flow test: the least writer, and the first reader after it.
fn flow_pair(search: &Search<'_>) -> Result<Option<Witness>, AllocError>
    requires { IsSearch search.now }
    ensures { IfOk result (FindsPair search.now Flow) }
{
    let Some(writer) = search.first(Kind::FirstWrite, 0)? else {
        return Ok(None);
    };
    let Some(reader) = search.first(Kind::ExposedRead, writer.index + 1)? else {
        return Ok(None);
    };
    Ok(Some(Witness { writer, reader }))
}

/// The least pair by the LRPD test: the least reader and the least other writer; or where it is the only writer, that
/// writer and the next reader.
fn lrpd_pair(search: &Search<'_>) -> Result<Option<Witness>, AllocError>
    requires { IsSearch search.now }
    ensures { IfOk result (FindsPair search.now Lrpd) }
{
    let Some(reader) = search.first(Kind::ExposedRead, 0)? else {
        return Ok(None);
    };
    let Some(writer) = search.first(Kind::FirstWrite, 0)? else {
        return Ok(None);
    };
    if writer.index != reader.index {
        return Ok(Some(Witness { writer, reader }));
    }
    let next = writer.index + 1;
    if let Some(writer) = search.first(Kind::FirstWrite, next)? {
        return Ok(Some(Witness { writer, reader }));
    }
    let Some(reader) = search.first(Kind::ExposedRead, next)? else {
        return Ok(None);
    };
    Ok(Some(Witness { writer, reader }))
}

/// Of the counted iterations of a loop call that main of this program made, each run on the start maps, the two that
/// fail a test at an element, where two do: of all such pairs the one with the least reader, and of these the one with
/// the least writer. The start maps are of the program's sizes, `broke` is what `find_break` returned for them, and the
/// survey is of the call on them.
pub fn find_pair(
    alloc: Global,
    program: &Verified,
    call: &LoopCall,
    start: &Maps,
    test: Test,
    element: u32,
    broke: Option<Place>,
    survey: &Survey,
) -> Result<Option<Witness>, AllocError>
    requires known { OverApproximatesCall program.now call.now }
    requires sizes { start.now.sizes ≡ program.now.sizes }
    requires broke { IsBreak program.now call.now start.now.words broke }
    requires survey { IsSurvey program.now call.now start.now.words survey.now }
    ensures pair { IfOk result (Explains test program.now call.now start.now.words element) }
{
    let search = Search {
        alloc,
        program,
        call,
        start,
        element,
        count: counted_by(program, call, start, broke),
        survey,
    };
    match test {
        Test::Flow => flow_pair(&search),
        Test::Lrpd => lrpd_pair(&search),
    }
}
