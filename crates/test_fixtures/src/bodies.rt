//! Functions, closures and declarations, by what an ask finds in them.

/// A body that writes the local after the last use of its borrow: no error.
pub const WRITES_LAST: &[u8] =
    b"fn () -> int { let _1: int; let _2: &'?0 int; bb0 { _1 = 1; _2 = &'?1 _1; _0 = copy _2.*; _1 = 2; return; } }";

/// A body that writes the local while its borrow is still used: one conflict.
pub const WRITES_WHILE_BORROWED: &[u8] =
    b"fn () -> int { let _1: int; let _2: &'?0 int; bb0 { _1 = 1; _2 = &'?1 _1; _1 = 2; _0 = copy _2.*; return; } }";

/// A body that creates its closure 0 and invokes it.
pub const INVOKES: &[u8] =
    b"fn () -> int { let _1: closure 0; bb0 { _1 = closure 0(); _0 = invoke _1() bb1; } bb1 { return; } }";

/// A closure that creates no closure: no error.
pub const CLOSURE: &[u8] = b"closure [] () -> int { bb0 { _0 = 0; return; } }";

/// A closure that writes a local while its borrow is still used: one conflict.
pub const CLOSURE_WRITES: &[u8] =
    b"closure [] () -> int { let _1: int; let _2: &'?0 int; bb0 { _1 = 1; _2 = &'?1 _1; _1 = 2; _0 = copy _2.*; return; } }";

/// A good declaration: its region is inside the pointee of a `&mut`, and marked invariant.
pub const MARKED_INVARIANT: &[u8] = b"struct H<='a> { &'static mut &'a int; }";
