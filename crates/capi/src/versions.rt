// The version of the library, as the file VERSION has it; ./build holds the two together.
ghost use Rattle.std.specs.Prelude.{◌≡◌};

const FIRST: u32 = 0;

const SECOND: u32 = 1;

const THIRD: u32 = 0;

// The three numbers of the version. Nothing is refused.
#[unsafe(no_mangle)]
pub extern "C" fn pw_version(first: &mut u32, second: &mut u32, third: &mut u32) -> u32
    ensures { (result ≡ 0) × (first.new ≡ 0) × (second.new ≡ 1) × (third.new ≡ 0) }
{
    *first = FIRST;
    *second = SECOND;
    *third = THIRD;
    0
}
