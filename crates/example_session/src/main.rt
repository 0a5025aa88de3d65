//! A database from open to close: the program that `docs/user/library.md` prints.
#![tactic(auto)]

use anyhow::{Result, bail};
use bc_analyses::providers;
use bc_prov::share;
use bc_report::write_report;
use bc_share::Db;
use bc_text::{Name, read_unit};
use bc_versions::Waiting;
use std::io::Write;

const TEXT: &[u8] =
    b"fn () -> int { let _1: int; let _2: &'?0 int; bb0 { _1 = 1; _2 = &'?1 _1; _1 = 2; _0 = copy _2.*; return; } }";

fn main(rt: HostRuntime) -> Result<()> {
    let (alloc, mut out) = (rt.alloc(), rt.stdout());
    let providers = providers!(alloc);
    let Some(name) = Name::read(b"f") else {
        bail!("no name");
    };
    let (db, mut sessions) = Db::open(alloc, Waiting::new(&rt), 1, 1_000, 2)?;
    let Some(editor) = sessions.first_mut() else {
        bail!("no session");
    };
    let unit = share(alloc, read_unit(alloc, TEXT)?)?;
    editor.put(&rt, name, unit.into_arc())?;
    let outcome = editor.ask(&rt, &name, &providers)?;
    write_report(&outcome, &mut out)?;
    if let Some(reader) = sessions.last_mut() {
        let is_published = reader.glance(&name)?.is_some();
        writeln!(out, "published {is_published}")?;
    }
    let calls = db.close(&rt, sessions)?.entries().len();
    writeln!(out, "calls {calls}")?;
    Ok(())
}
