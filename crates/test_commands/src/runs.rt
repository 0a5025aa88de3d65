//! A file of `run`, its history, and command lines for it.

/// The words of a run with one session, and with two.
pub const ONE: &[&str] = &["run", "demo"];

pub const TWO: &[&str] = &["run", "demo", "--sessions", "2"];

/// The words of a run with one session and the history as JSON.
pub const ONE_JSON: &[&str] = &["run", "--json", "demo"];

/// A file that puts a body, asks for it, and removes a name that holds nothing.
pub const FILE: &[u8] =
    b"@0 put f\nfn () -> int { let _1: int; let _2: &'?0 int; bb0 { _1 = 1; _2 = &'?1 _1; _0 = copy _2.*; _1 = 2; return; } }\n@0 ask f\n@0 remove g\n";

pub const HISTORY: &[u8] = b"0 0 put f added\n0 1 ask f\nf 0\n0 2 remove g absent\n";

pub const JSON_HISTORY: &[u8] =
    b"{\"number\":0,\"reply\":\"added\",\"session\":0}\n{\"number\":1,\"outcome\":{\"bodies\":[{\"errors\":[],\"name\":\"f\"}],\"kind\":\"report\"},\"session\":0}\n{\"number\":2,\"reply\":\"absent\",\"session\":0}\n";
