// Bytes in a lent buffer: as many as fit are laid over it. It meets `encoding`, specs/Bytes.
#![tactic(auto)]

ghost use Rattle.std.specs.Prelude.{◌≡◌, ◌-◌, min};
ghost use Rattle.encoding.specs.Bytes.{laid};

// Lays bytes over a lent buffer from place `at` on, those that fit; all others stay.
pub fn lay(out: &mut [u8], at: usize, b: &[u8])
    ensures { out.new ≡ laid out.old at b.now }
{
    let from = at.min(out.len());
    let n = b.len().min(out.len() - from);
    out[from..from + n].copy_from_slice(&b[..n]);
}
