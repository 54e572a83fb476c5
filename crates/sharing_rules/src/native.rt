// The layouts under which lines may be predicted.
ghost use Rattle.std.specs.Prelude.{◌≡◌, ◌==◌, ◌&&◌};
ghost use Rattle.sharing_rules.specs.Predicted.{is_native_size};

use base::Layout;

/// Whether lines may be predicted under a layout: it has offset 0 and size 32, 64, 128 or 256.
#[tactic(auto, using(std::proofs::lemmas::Bool::Decides::nat_tests))]
pub fn is_native(layout: Layout) -> bool
    ensures { result ≡ (is_native_size layout.size && (layout.offset == 0)) }
{
    matches!(layout.size(), 32 | 64 | 128 | 256) && layout.offset() == 0
}
