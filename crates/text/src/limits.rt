// How long a text and its lines may be.

// The longest text, in bytes.
pub const MAX_TEXT: usize = 65_536;

// The longest line, in bytes, counted with its line feed.
pub const MAX_LINE: usize = 112;
