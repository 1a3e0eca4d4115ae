// The words that name operations and comparisons in the programs of tests.

/// Operations, by their opcodes.
pub mod op {
    pub const ADD: u16 = 0x00;

    pub const SUB: u16 = 0x01;

    pub const NEG: u16 = 0x02;

    pub const MUL: u16 = 0x03;

    pub const DIV: u16 = 0x04;

    pub const MOD: u16 = 0x05;

    pub const AND: u16 = 0x06;

    pub const OR: u16 = 0x07;

    pub const XOR: u16 = 0x08;

    pub const NOT: u16 = 0x09;

    pub const CMP: u16 = 0x11;

    pub const TST: u16 = 0x12;

    pub const INDEX: u16 = 0x15;

    pub const REPLACE: u16 = 0x16;

    pub const ARRSIZE: u16 = 0x17;

    pub const ARRBUILD: u16 = 0x18;

    pub const ARRSUBSET: u16 = 0x19;

    pub const ARRINIT: u16 = 0x1A;

    pub const MOV: u16 = 0x1B;

    pub const SET: u16 = 0x1C;

    pub const FLATTEN: u16 = 0x1D;

    pub const UNFLATTEN: u16 = 0x1E;

    pub const NUMTOSTR: u16 = 0x1F;

    pub const STRTONUM: u16 = 0x20;

    pub const STRCAT: u16 = 0x21;

    pub const STRSUBSET: u16 = 0x22;

    pub const STRTOARR: u16 = 0x23;

    pub const ARRTOSTR: u16 = 0x24;

    pub const JMP: u16 = 0x25;

    pub const BRCMP: u16 = 0x26;

    pub const BRTST: u16 = 0x27;

    pub const SYSCALL: u16 = 0x28;

    pub const STOP: u16 = 0x29;

    pub const FINCLUMP: u16 = 0x2A;

    pub const FINCLUMPIMMED: u16 = 0x2B;

    pub const ACQUIRE: u16 = 0x2C;

    pub const RELEASE: u16 = 0x2D;

    pub const SUBCALL: u16 = 0x2E;

    pub const SUBRET: u16 = 0x2F;

    pub const SETIN: u16 = 0x30;

    pub const SETOUT: u16 = 0x31;

    pub const GETIN: u16 = 0x32;

    pub const GETOUT: u16 = 0x33;

    pub const WAIT: u16 = 0x34;

    pub const GETTICK: u16 = 0x35;
}

/// Comparisons, by their numbers.
pub mod cmp {
    pub const LT: u16 = 0;

    pub const GT: u16 = 1;

    pub const LTEQ: u16 = 2;

    pub const GTEQ: u16 = 3;

    pub const EQ: u16 = 4;

    pub const NEQ: u16 = 5;
}
