//! A trace of a plan with one input, read back, and one whose line is none.

use lola_model::pacing::Pacings;
use lola_model::plan::{Layers, Numbers, PaneSizes, Plan};
use lola_model::spec::{Constants, Kinds, Places, Sort, Spec, Stream, Streams, Texts, Windows};
use lola_report::{JournalEnd, journal};
use lola_value::text::{Memory, Text};
use lola_value::value::Kind;
use std::alloc::Global;
use std::test::Fail;

fn input(alloc: Global) -> Result<Stream, Memory> {
    Ok(Stream {
        name: Text::from_bytes(alloc, b"s")?,
        place: 0,
        sort: Sort::Input,
        message: Text::from_bytes(alloc, b"")?,
        kind: Some(Kind::Text),
        parameters: Kinds::create(alloc),
        spawn: None,
        eval: None,
        close: None,
    })
}

// A plan with one input of texts.
fn plan(alloc: Global) -> Result<Plan, Memory> {
    let mut streams = Streams::create(alloc);
    streams.push(input(alloc)?)?;
    Ok(Plan {
        spec: Spec {
            streams,
            constants: Constants::create(alloc),
            windows: Windows::create(alloc),
            texts: Texts::create(alloc),
            refused: Places::create(alloc),
        },
        pacings: Pacings::create(alloc),
        layers: Layers::create(alloc),
        kept: Numbers::create(alloc),
        panes: PaneSizes::create(alloc),
    })
}

#[test]
fn a_trace_is_read_back(rt: HostRuntime) -> Result<(), Fail> {
    let alloc = rt.alloc();
    let plan = plan(alloc)?;
    let read = journal(alloc, &plan, b"0,1,0.000000000,A,\"x,\"\"y\"\n")?;
    assert!(rt; read.as_slice().len() == 1);
    let end = journal(alloc, &plan, b"0,1,0,A,x\n").err();
    assert!(rt; matches!(end, Some(JournalEnd::BadLine(1))));
    Ok(())
}
