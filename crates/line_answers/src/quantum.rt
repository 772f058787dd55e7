//! How many Steps a node does at a time.
ghost use Rattle.std.specs.Prelude.{◌≡◌, ◌≤◌};

/// How many Steps a node does at a time, 1 to 4,096.
#[derive(Clone, Copy)]
pub struct Quantum {
    steps: u64,
    ghost in_range: { (1 ≤ steps) × (steps ≤ 4096) },
}

impl Quantum {
    /// A quantum of `steps` Steps, 1 to 4,096.
    pub fn of(steps: u16) -> Quantum
        requires { (1 ≤ steps) × (steps ≤ 4096) }
        ensures { result.steps ≡ steps }
    {
        Quantum {
            steps: u64::from(steps),
        }
    }

    /// The number of Steps.
    pub fn steps(self) -> u64
        ensures answer { result ≡ self.steps }
        ensures in_range { (1 ≤ result) × (result ≤ 4096) }
    {
        self.steps
    }
}
