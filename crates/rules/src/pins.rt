// The pins at one clock, and the command that they bring.

#[derive(Clone, Copy)]
pub enum Level {
    Low,
    High,
}

// Of `dqm` the low four bits count, of `address` the low ten, A9 to A0.
#[derive(Clone, Copy)]
pub struct Pins {
    pub cs: Level,
    pub ras: Level,
    pub cas: Level,
    pub we: Level,
    pub dsf: Level,
    pub dqm: u8,
    pub address: u16,
    pub dq: u32,
}

#[derive(Clone, Copy, PartialEq, Eq, Debug)]
pub enum BankName {
    A,
    B,
}

// The banks that a PRE closes.
#[derive(Clone, Copy, PartialEq, Eq, Debug)]
pub enum Target {
    One(BankName),
    Both,
}

#[derive(Clone, Copy)]
pub enum Access {
    // RD
    Read,
    // WR
    Write,
    // BW
    Block,
}

#[derive(Clone, Copy)]
pub enum Command {
    // INHBT
    Inhibit,
    Nop,
    // BST
    Stop,
    // RD, WR or BW at a bank and a column, with A8 beside it
    Column {
        access: Access,
        bank: BankName,
        a8: bool,
        column: u8,
    },
    // ACT, or ACTM where masked, at a bank and a row
    Activate {
        masked: bool,
        bank: BankName,
        row: u16,
    },
    // PRE
    Precharge(Target),
    // REF
    Refresh,
    // LMR; the code as it is brought, since any of 1,024 can come, and one that is not listed breaks a rule
    LoadMode {
        code: u16,
    },
    // LSMR; its code as it is brought
    LoadSpecial {
        code: u16,
    },
}
