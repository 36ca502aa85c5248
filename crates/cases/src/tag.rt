// The tags of fields: L, R, E and T. Bytes and no enum, since any byte may stand where a tag should.
pub const NAME: u8 = b'L';

pub const RULE: u8 = b'R';

pub const ENTRY: u8 = b'E';

pub const TICK: u8 = b'T';
