// The test for a state as a C function, for checks and benchmarks alone: no part of the public surface.
#![tactic(auto)]

ghost use Rattle.std.specs.Prelude.{◌≡◌};
ghost use Rattle.sound.specs.Sound.{tested_in};
ghost use Rattle.rules.specs.Numbers.{test_number};

// What every call but setup, the finding and the repair asks first: 0 for a switch state, else 3, the number of the refusal.
#[unsafe(no_mangle)]
pub extern "C" fn rule_test(mem: &[u8]) -> u32
    ensures { result ≡ test_number (tested_in mem.now) }
{
    match sound::test(mem) {
        Ok(_) => 0,
        Err(no) => u32::from(no),
    }
}
