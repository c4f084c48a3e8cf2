// Sums of sizes from a place on, up to another; each addition is rounded once.
ghost use Rattle.std.specs.Prelude.{◌≡◌, reverse, ◌≤◌};
ghost use Rattle.levels.specs.Depth.{total, plus_zero};
ghost use Rattle.levels.specs.Work.{sizes_in};

pub fn sum_up(sizes: &[f64; 512], from: usize, to: usize) -> f64
    requires { (from ≤ to) × (to ≤ 512) }
    ensures { result ≡ total plus_zero (sizes_in sizes.now from to) }
{
    sizes[from..to].iter().fold(0.0, |sum, size| sum + *size)
}

pub fn sum_down(sizes: &[f64; 512], from: usize, to: usize) -> f64
    requires { (from ≤ to) × (to ≤ 512) }
    ensures { result ≡ total plus_zero (reverse (sizes_in sizes.now from to)) }
{
    sizes[from..to]
        .iter()
        .rev()
        .fold(0.0, |sum, size| sum + *size)
}
