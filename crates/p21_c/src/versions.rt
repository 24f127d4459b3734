//! The version of the library.
ghost use Rattle.std.specs.Prelude.{◌≡◌};

/// The numbers of a version.
#[repr(C)]
#[derive(Clone, Copy)]
pub struct Version {
    pub major: u32,
    pub minor: u32,
    pub patch: u32,
}

/// The version of the library, which is that of the program.
#[unsafe(no_mangle)]
pub extern "C" fn p21_version(version: &mut Version)
    ensures { version.new ≡ record { major = 0; minor = 1; patch = 0 } }
{
    *version = Version {
        major: 0,
        minor: 1,
        patch: 0,
    };
}
