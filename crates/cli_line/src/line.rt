//! A command line: a command with its options, and the file that it names.
ghost use Rattle.std.specs.Prelude.{◌≡◌, ◌≤◌, ◌&&◌, false, string_bytes};
ghost use Rattle.cli_line.specs.Lines.{solver_of};

use crate::Solver;
use std::marker::Model;

/// The most sessions for which a line may ask.
pub const MOST_SESSIONS: u8 = 16;

/// The most entries of a history for which a line of `serve` may ask.
pub const MOST_CAPACITY: u32 = 1_000_000;

/// A line of `check`: the name of its file, and its options. Contracts see these parts. It never has both `--json` and `--source`.
#[derive_where(Debug)]
pub struct CheckLine {
    file: String,
    json: bool,
    source: bool,
    positions: bool,
    jobs: Option<u8>,
    solver: Solver,
}

impl Drop for CheckLine {
    fn drop(self) {
        let Self {
            file: _,
            json: _,
            source: _,
            positions: _,
            jobs: _,
            solver: _,
        } = self;
    }
}

impl Model for CheckLine {
    ghost use Rattle.std.specs.Prelude.{◌≡◌, ◌&&◌, false, string_bytes};
    ghost use Rattle.cli_line.specs.Parts.{CheckParts};

    ghost Value = { CheckParts };

    ghost view = { λ line. record {
      file = string_bytes line.file;
      json = line.json;
      source = line.source;
      positions = line.positions;
      jobs = line.jobs;
      solver = line.solver;
    } };

    ghost invariant = { λ line. (line.json && line.source) ≡ false };
}

impl CheckLine {
    /// Returns the line with these parts.
    pub(crate) fn new(
        file: String,
        json: bool,
        source: bool,
        positions: bool,
        jobs: Option<u8>,
        solver: Solver,
    ) -> Self
        requires alone { (json && source) ≡ false }
        ensures { result ≡ record { file = string_bytes file; json = json; source = source; positions = positions; jobs = jobs; solver = solver } }
    {
        CheckLine {
            file,
            json,
            source,
            positions,
            jobs,
            solver,
        }
    }

    /// Returns the name of the file, which may be any text. The name `-` is standard input.
    pub fn file(&self) -> &str
        ensures { result.now ≡ self.now.file }
    {
        self.file.as_str()
    }

    /// Returns whether the line has `--json`. Then it has no `--source`.
    pub fn json(&self) -> bool
        ensures value { result ≡ self.now.json }
        ensures alone { (result && self.now.source) ≡ false }
    {
        self.json
    }

    /// Returns whether the line has `--source`. Then it has no `--json`.
    pub fn source(&self) -> bool
        ensures value { result ≡ self.now.source }
        ensures alone { (self.now.json && result) ≡ false }
    {
        self.source
    }

    /// Returns whether the line has `--positions`.
    pub fn positions(&self) -> bool
        ensures { result ≡ self.now.positions }
    {
        self.positions
    }

    /// Returns the number of threads that are to share the work, 1 to 255, or `None` if the line has no `--jobs`.
    pub fn jobs(&self) -> Option<u8>
        ensures { result ≡ self.now.jobs }
    {
        self.jobs
    }

    /// Returns the solver of `--solver`, by default `Components`.
    pub fn solver(&self) -> Solver
        ensures { result ≡ self.now.solver }
    {
        self.solver
    }
}

/// A line of `run`: the name of its file, and its options. Contracts see these parts. It has 1 to 16 sessions.
#[derive_where(Debug)]
pub struct RunLine {
    file: String,
    json: bool,
    positions: bool,
    sessions: u8,
    solver: Solver,
}

impl Drop for RunLine {
    fn drop(self) {
        let Self {
            file: _,
            json: _,
            positions: _,
            sessions: _,
            solver: _,
        } = self;
    }
}

impl Model for RunLine {
    ghost use Rattle.std.specs.Prelude.{◌≤◌, string_bytes};
    ghost use Rattle.cli_line.specs.Parts.{RunParts};

    ghost Value = { RunParts };

    ghost view = { λ line. record {
      file = string_bytes line.file;
      json = line.json;
      positions = line.positions;
      sessions = line.sessions;
      solver = line.solver;
    } };

    ghost invariant = { λ line. (1 ≤ line.sessions) × (line.sessions ≤ 16) };
}

impl RunLine {
    /// Returns the line with these parts.
    pub(crate) fn new(
        file: String,
        json: bool,
        positions: bool,
        sessions: u8,
        solver: Solver,
    ) -> Self
        requires least { 1 ≤ sessions }
        requires most { sessions ≤ 16 }
        ensures { result ≡ record { file = string_bytes file; json = json; positions = positions; sessions = sessions; solver = solver } }
    {
        RunLine {
            file,
            json,
            positions,
            sessions,
            solver,
        }
    }

    /// Returns the name of the file, which may be any text. The name `-` is standard input.
    pub fn file(&self) -> &str
        ensures { result.now ≡ self.now.file }
    {
        self.file.as_str()
    }

    /// Returns whether the line has `--json`.
    pub fn json(&self) -> bool
        ensures { result ≡ self.now.json }
    {
        self.json
    }

    /// Returns whether the line has `--positions`.
    pub fn positions(&self) -> bool
        ensures { result ≡ self.now.positions }
    {
        self.positions
    }

    /// Returns the number of sessions, 1 to 16, by default 1.
    pub fn sessions(&self) -> u8
        ensures value { result ≡ self.now.sessions }
        ensures least { 1 ≤ result }
        ensures most { result ≤ 16 }
    {
        self.sessions
    }

    /// Returns the solver of `--solver`, by default `Components`.
    pub fn solver(&self) -> Solver
        ensures { result ≡ self.now.solver }
    {
        self.solver
    }
}

/// A line of `serve`: its options. Contracts see these parts. It has 1 to 16 sessions, and a capacity of 1 to 1,000,000 entries.
#[derive(Drop)]
#[derive_where(Debug)]
pub struct ServeLine {
    sessions: u8,
    capacity: u32,
    solver: Solver,
}

impl Model for ServeLine {
    ghost use Rattle.std.specs.Prelude.{◌≤◌};
    ghost use Rattle.cli_line.specs.Parts.{ServeParts};

    ghost Value = { ServeParts };

    ghost view = { λ line. record {
      sessions = line.sessions;
      capacity = line.capacity;
      solver = line.solver;
    } };

    ghost invariant = { λ line. ((1 ≤ line.sessions) × (line.sessions ≤ 16)) × ((1 ≤ line.capacity) × (line.capacity ≤ 1000000)) };
}

impl ServeLine {
    /// Returns the line with these parts.
    pub(crate) fn new(sessions: u8, capacity: u32, solver: Solver) -> Self
        requires least { 1 ≤ sessions }
        requires most { sessions ≤ 16 }
        requires least_capacity { 1 ≤ capacity }
        requires most_capacity { capacity ≤ 1000000 }
        ensures { result ≡ record { sessions = sessions; capacity = capacity; solver = solver } }
    {
        ServeLine {
            sessions,
            capacity,
            solver,
        }
    }

    /// Returns the number of sessions, 1 to 16, by default 1.
    pub fn sessions(&self) -> u8
        ensures value { result ≡ self.now.sessions }
        ensures least { 1 ≤ result }
        ensures most { result ≤ 16 }
    {
        self.sessions
    }

    /// Returns the most entries of the history, 1 to 1,000,000, by default 1,000,000.
    pub fn capacity(&self) -> u32
        ensures value { result ≡ self.now.capacity }
        ensures least { 1 ≤ result }
        ensures most { result ≤ 1000000 }
    {
        self.capacity
    }

    /// Returns the solver of `--solver`, by default `Components`.
    pub fn solver(&self) -> Solver
        ensures { result ≡ self.now.solver }
    {
        self.solver
    }
}

/// A line of `print`: the name of its file, and its option. Contracts see these parts.
#[derive_where(Debug)]
pub struct PrintLine {
    file: String,
    positions: bool,
}

impl Drop for PrintLine {
    fn drop(self) {
        let Self {
            file: _,
            positions: _,
        } = self;
    }
}

impl Model for PrintLine {
    ghost use Rattle.std.specs.Prelude.{string_bytes};
    ghost use Rattle.cli_line.specs.Parts.{PrintParts};

    ghost Value = { PrintParts };

    ghost view = { λ line. record {
      file = string_bytes line.file;
      positions = line.positions;
    } };
}

impl PrintLine {
    /// Returns the line with these parts.
    pub(crate) fn new(file: String, positions: bool) -> Self
        ensures { result ≡ record { file = string_bytes file; positions = positions } }
    {
        PrintLine { file, positions }
    }

    /// Returns the name of the file, which may be any text. The name `-` is standard input.
    pub fn file(&self) -> &str
        ensures { result.now ≡ self.now.file }
    {
        self.file.as_str()
    }

    /// Returns whether the line has `--positions`.
    pub fn positions(&self) -> bool
        ensures { result ≡ self.now.positions }
    {
        self.positions
    }
}

/// A line of one of the commands.
#[derive_where(Debug)]
pub enum Line {
    /// A line of `check`.
    Check(CheckLine),
    /// A line of `run`.
    Run(RunLine),
    /// A line of `serve`.
    Serve(ServeLine),
    /// A line of `print`.
    Print(PrintLine),
}

impl Drop for Line {
    fn drop(self) {
        match self {
            Self::Check(_) => {}
            Self::Run(_) => {}
            Self::Serve(_) => {}
            Self::Print(_) => {}
        }
    }
}

impl Line {
    /// Returns the solver of the line. A line of `print` solves nothing, and returns `Components`.
    pub fn solver(&self) -> Solver
        ensures { result ≡ solver_of self.now }
    {
        match self {
            Line::Check(check) => check.solver(),
            Line::Run(run) => run.solver(),
            Line::Serve(serve) => serve.solver(),
            Line::Print(_) => Solver::Components,
        }
    }
}
