//! The JSON line of a report without bodies, which no file can cause.
use bc_json::json_report;
use bc_prov::Outcome;
use bc_syntax::Sequence;
use std::test::Fail;
use test_fixtures::name;

#[test]
fn no_bodies(rt: HostRuntime) -> Result<(), Fail> {
    let outcome = Outcome::Report(Sequence::new(rt.alloc()));
    let line = json_report(rt.alloc(), &name(b"f")?, &outcome)?;
    assert_eq!(rt;
        line.as_str(),
        "{\"ask\":\"f\",\"outcome\":{\"bodies\":[],\"kind\":\"report\"}}"
    );
    Ok(())
}
