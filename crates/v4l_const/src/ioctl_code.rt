ghost use Rattle.std.specs.Prelude.{◌≡◌, ◌≢◌, IfSome, IsNone};
ghost use Rattle.v4l_const.specs.IoctlCode.{ioctl_number, ioctl_of};
ghost use Rattle.v4l_const.specs.declared.ioctl_code.IoctlCode.{IoctlCode};

/// A call that the driver sends to the device. `DQBUF` and `DQEVENT` aren't sent: the driver
/// answers them.
///
/// Source: Linux V4L2, `videodev2.h`.
#[derive(Clone, Copy, Debug, PartialEq, Eq)]
pub enum IoctlCode {
    QueryCap,
    EnumFmt,
    GFmt,
    SFmt,
    ReqBufs,
    QueryBuf,
    QBuf,
    StreamOn,
    StreamOff,
    EnumInput,
    GInput,
    SInput,
    TryFmt,
    SubscribeEvent,
    UnsubscribeEvent,
}

impl IoctlCode {
    ghost use Rattle.v4l_const.specs.IoctlCode.{payload_size as size_of_payload};

    /// The call's number within the group 'V' of Linux' ioctls.
    pub fn number(self) -> u32
        ensures { result ≡ ioctl_number self }
    {
        match self {
            IoctlCode::QueryCap => 0,
            IoctlCode::EnumFmt => 2,
            IoctlCode::GFmt => 4,
            IoctlCode::SFmt => 5,
            IoctlCode::ReqBufs => 8,
            IoctlCode::QueryBuf => 9,
            IoctlCode::QBuf => 15,
            IoctlCode::StreamOn => 18,
            IoctlCode::StreamOff => 19,
            IoctlCode::EnumInput => 26,
            IoctlCode::GInput => 38,
            IoctlCode::SInput => 39,
            IoctlCode::TryFmt => 64,
            IoctlCode::SubscribeEvent => 90,
            IoctlCode::UnsubscribeEvent => 91,
        }
    }

    /// The bytes that the call carries, in its command and in its reply.
    pub fn payload_size(self) -> u32
        ensures { result ≡ size_of_payload self }
    {
        match self {
            IoctlCode::QueryCap => 104,
            IoctlCode::EnumFmt => 64,
            IoctlCode::GFmt => 208,
            IoctlCode::SFmt => 208,
            IoctlCode::ReqBufs => 20,
            IoctlCode::QueryBuf => 88,
            IoctlCode::QBuf => 88,
            IoctlCode::StreamOn => 4,
            IoctlCode::StreamOff => 4,
            IoctlCode::EnumInput => 80,
            IoctlCode::GInput => 4,
            IoctlCode::SInput => 4,
            IoctlCode::TryFmt => 208,
            IoctlCode::SubscribeEvent => 32,
            IoctlCode::UnsubscribeEvent => 32,
        }
    }

    /// The call that has this number, where it is sent.
    pub fn of(n: u32) -> Option<IoctlCode>
        ensures value { result ≡ ioctl_of n }
        ensures number { IfSome result (λ code. ioctl_number code ≡ n) }
        ensures none { IsNone result → (code : IoctlCode) → ioctl_number code ≢ n }
    {
        match n {
            0 => Some(IoctlCode::QueryCap),
            2 => Some(IoctlCode::EnumFmt),
            4 => Some(IoctlCode::GFmt),
            5 => Some(IoctlCode::SFmt),
            8 => Some(IoctlCode::ReqBufs),
            9 => Some(IoctlCode::QueryBuf),
            15 => Some(IoctlCode::QBuf),
            18 => Some(IoctlCode::StreamOn),
            19 => Some(IoctlCode::StreamOff),
            26 => Some(IoctlCode::EnumInput),
            38 => Some(IoctlCode::GInput),
            39 => Some(IoctlCode::SInput),
            64 => Some(IoctlCode::TryFmt),
            90 => Some(IoctlCode::SubscribeEvent),
            91 => Some(IoctlCode::UnsubscribeEvent),
            _ => None,
        }
    }
}
