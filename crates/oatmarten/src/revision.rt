// Which revision of include/oatmarten.h the library is: the number that the header has as OAT_REVISION, so that a program can tell what it was
// linked with.
ghost use Rattle.std.specs.Prelude.{◌≡◌};
ghost use Rattle.oatmarten.specs.Revision.{revision};

pub fn oat_revision() -> u32
    ensures { result ≡ revision }
{
    9
}
