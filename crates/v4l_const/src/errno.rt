ghost use Rattle.std.specs.Prelude.{◌≡◌, ◌≢◌, IfSome, IsNone};
ghost use Rattle.v4l_const.specs.Errno.{errno_number, errno_name, errno_of};
ghost use Rattle.v4l_const.specs.declared.errno.Errno.{Errno};

/// An error that a call answers.
///
/// Source: Linux, `errno-base.h` and `errno.h`.
#[derive(Clone, Copy, Debug, PartialEq, Eq)]
pub enum Errno {
    Enoent,
    Eio,
    Ebadf,
    Eagain,
    Enomem,
    Eacces,
    Efault,
    Ebusy,
    Einval,
    Enotty,
    Edeadlk,
    Emsgsize,
    Eopnotsupp,
}

impl Errno {
    /// The error's number, as a reply's status carries it.
    pub fn number(self) -> u32
        ensures { result ≡ errno_number self }
    {
        match self {
            Errno::Enoent => 2,
            Errno::Eio => 5,
            Errno::Ebadf => 9,
            Errno::Eagain => 11,
            Errno::Enomem => 12,
            Errno::Eacces => 13,
            Errno::Efault => 14,
            Errno::Ebusy => 16,
            Errno::Einval => 22,
            Errno::Enotty => 25,
            Errno::Edeadlk => 35,
            Errno::Emsgsize => 90,
            Errno::Eopnotsupp => 95,
        }
    }

    /// The error's name, as a refusal is printed.
    pub fn name(self) -> &'static str
        ensures { result.now ≡ errno_name self }
    {
        match self {
            Errno::Enoent => "ENOENT",
            Errno::Eio => "EIO",
            Errno::Ebadf => "EBADF",
            Errno::Eagain => "EAGAIN",
            Errno::Enomem => "ENOMEM",
            Errno::Eacces => "EACCES",
            Errno::Efault => "EFAULT",
            Errno::Ebusy => "EBUSY",
            Errno::Einval => "EINVAL",
            Errno::Enotty => "ENOTTY",
            Errno::Edeadlk => "EDEADLK",
            Errno::Emsgsize => "EMSGSIZE",
            Errno::Eopnotsupp => "EOPNOTSUPP",
        }
    }

    /// The error that has this number.
    pub fn of(n: u32) -> Option<Errno>
        ensures value { result ≡ errno_of n }
        ensures number { IfSome result (λ e. errno_number e ≡ n) }
        ensures none { IsNone result → (e : Errno) → errno_number e ≢ n }
    {
        match n {
            2 => Some(Errno::Enoent),
            5 => Some(Errno::Eio),
            9 => Some(Errno::Ebadf),
            11 => Some(Errno::Eagain),
            12 => Some(Errno::Enomem),
            13 => Some(Errno::Eacces),
            14 => Some(Errno::Efault),
            16 => Some(Errno::Ebusy),
            22 => Some(Errno::Einval),
            25 => Some(Errno::Enotty),
            35 => Some(Errno::Edeadlk),
            90 => Some(Errno::Emsgsize),
            95 => Some(Errno::Eopnotsupp),
            _ => None,
        }
    }
}
