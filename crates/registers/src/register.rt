// The registers that a channel's addresses name in one window or another. Two of them are one register to a read and another
// to a write. `Closed` stands among them, and for no None: document 01 says what such an address reads and takes (`register_at`,
// `read_of`).
#[derive(Clone, Copy, PartialEq, Eq)]
pub enum Register {
    RhrThr,
    Ier,
    IirFcr,
    Lcr,
    Mcr,
    Lsr,
    Msr,
    Spr,
    Txlvl,
    Rxlvl,
    IoControl,
    Efcr,
    Tcr,
    Tlr,
    Dll,
    Dlh,
    Efr,
    Xon1,
    Xon2,
    Xoff1,
    Xoff2,
    Closed,
}
