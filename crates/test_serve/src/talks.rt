//! A conversation, and its answers over devices that never fail.

/// Lines for session 0: each call, and each fault of a line that names a session. The last one has no line feed.
pub const LINES: &[u8] = b"{\"id\":1,\"call\":\"types\",\"text\":\"struct S { int; }\"}
{\"id\":2,\"session\":0,\"call\":\"put\",\"name\":\"f\",\"text\":\"fn()->int{bb0{_0=1;return;}}\"}
{\"id\":\"three\",\"call\":\"put\",\"name\":\"f/0\",\"text\":\"fn()->int{bb0{return;}}\",\"other\":{}}
{\"id\":4,\"call\":\"glance\",\"name\":\"f\"}
{\"id\":5,\"call\":\"ask\",\"name\":\"f\"}
{\"id\":6,\"call\":\"glance\",\"name\":\"f\"}
{\"id\":[7],\"call\":\"askall\"}
{\"id\":8,\"call\":\"put\",\"name\":\"f\",\"text\":\"fn()->int{bb0{return;}}\"}
{\"id\":9,\"call\":\"remove\",\"name\":\"f\"}
{\"id\":10,\"call\":\"remove\",\"name\":\"f\"}
{\"call\":\"ask\",\"name\":\"f\"}
{\"id\":12,\"call\":\"nope\"}
{\"id\":13,\"call\":\"put\",\"text\":\"\"}
{\"id\":14,\"call\":\"put\",\"name\":\"f\"}
{\"id\":15,\"call\":\"put\",\"name\":\"f\",\"text\":\"fn()->int{bb0{return;}}\\nx\"}
[]
{\"id\":17,\"call\":\"askall\"}";

/// The answers to `LINES`.
pub const ANSWERS: &[u8] = b"{\"id\":1,\"number\":0,\"reply\":\"stored\",\"session\":0}
{\"id\":2,\"number\":1,\"reply\":\"added\",\"session\":0}
{\"id\":\"three\",\"number\":2,\"reply\":\"wrongkind\",\"session\":0}
{\"id\":4,\"outcome\":null,\"session\":0}
{\"id\":5,\"number\":3,\"outcome\":{\"bodies\":[{\"errors\":[],\"name\":\"f\"}],\"kind\":\"report\"},\"session\":0}
{\"id\":6,\"outcome\":{\"bodies\":[{\"errors\":[],\"name\":\"f\"}],\"kind\":\"report\"},\"session\":0}
{\"id\":[7],\"number\":4,\"roots\":[{\"name\":\"f\",\"outcome\":{\"bodies\":[{\"errors\":[],\"name\":\"f\"}],\"kind\":\"report\"}}],\"session\":0}
{\"id\":8,\"number\":5,\"reply\":\"replaced\",\"session\":0}
{\"id\":9,\"number\":6,\"reply\":\"removed\",\"session\":0}
{\"id\":10,\"number\":7,\"reply\":\"absent\",\"session\":0}
{\"id\":null,\"number\":8,\"outcome\":{\"kind\":\"nobody\"},\"session\":0}
{\"fault\":\"bad call\",\"id\":12,\"session\":0}
{\"fault\":\"bad name\",\"id\":13,\"session\":0}
{\"fault\":\"bad text\",\"id\":14,\"session\":0}
{\"at\":24,\"column\":1,\"fault\":\"grammar\",\"id\":15,\"line\":2,\"session\":0}
{\"fault\":\"bad call\",\"id\":null,\"session\":0}
{\"id\":17,\"number\":9,\"roots\":[],\"session\":0}
";
