// How the adapters over std answer and count.
ghost use Rattle.std.specs.Prelude.{◌≡◌, ℕ, is_ok, is_some, IfOk, Some};
ghost use Rattle.fm_outer.specs.Failures.{HasCause};

use crate::Failed;

/// Gives what std gave, and counts where it gave nothing.
pub fn told<T>(failures: &mut u64, answer: Option<T>) -> Result<T, Failed>
    ensures answer { is_ok result ≡ is_some answer }
    ensures value { IfOk result (λ value. answer ≡ Some value) }
    ensures cause { HasCause failures.old failures.new result }
{
    match answer {
        Some(value) => Ok(value),
        None => {
            *failures = failures.saturating_add(1);
            Err(Failed)
        }
    }
}
