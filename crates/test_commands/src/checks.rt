//! A file of `check`, its reports, and command lines for it.

/// A file that puts a borrow that ends before its local is written again, under three names, one of which is no root, after a declaration.
pub const FILE: &[u8] =
    b"@types\nstruct S { int; }\n@put g\nfn () -> int { let _1: int; let _2: &'?0 int; bb0 { _1 = 1; _2 = &'?1 _1; _0 = copy _2.*; _1 = 2; return; } }\n@put f/0\nfn()->int{bb0{return;}}\n@put f\n\nfn()->int{bb0{_0=1;return;}}\n@put g\nfn()->int{bb0{_0=1;return;}}";

pub const REPORTS: &[u8] = b"ask f\nf 0\nask g\ng 0\n";

pub const JSON_REPORTS: &[u8] =
    b"{\"ask\":\"f\",\"outcome\":{\"bodies\":[{\"errors\":[],\"name\":\"f\"}],\"kind\":\"report\"}}\n{\"ask\":\"g\",\"outcome\":{\"bodies\":[{\"errors\":[],\"name\":\"g\"}],\"kind\":\"report\"}}\n";

pub const REFUSED: &[u8] = b"put f/0 wrongkind\n";

/// The words of a check with text output, and with JSON.
pub const TEXT: &[&str] = &["check", "demo"];

pub const JSON: &[&str] = &["check", "--json", "demo"];

/// The words of a check with text output, with one job and with four.
pub const ONE_JOB: &[&str] = &["check", "--jobs", "1", "demo"];

pub const FOUR_JOBS: &[&str] = &["check", "--jobs", "4", "demo"];
