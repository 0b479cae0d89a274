// The two ends of a relation's pairs: its outputs and its inputs. The same is asked of both, in different orders.
ghost use Rattle.std.specs.Prelude.{◌≡◌, Bool, true, false};
ghost use Rattle.relation_images.specs.Ends.{in_order, range_number, image_number};

use memory::memo;

pub(crate) trait End {
    // Whether it is the outputs.
    ghost outputs: { Bool };

    // The memo's number of what a relation has at this end.
    fn range_number() -> u32
        ensures { result ≡ range_number outputs };

    // That of what it has there for a set at the other end.
    fn image_number() -> u32
        ensures { result ≡ image_number outputs };

    // Two numbers, of digits 0 and 1 or 01 and 10, in the order in which this end asks for them.
    fn in_order(a: u32, b: u32) -> (u32, u32)
        ensures { result ≡ in_order outputs a b };
}

pub(crate) struct Outputs;

pub(crate) struct Inputs;

impl End for Outputs {
    ghost outputs = { true };

    fn range_number() -> u32 {
        memo::FWD
    }

    fn image_number() -> u32 {
        memo::PUSH
    }

    fn in_order(a: u32, b: u32) -> (u32, u32) {
        (b, a)
    }
}

impl End for Inputs {
    ghost outputs = { false };

    fn range_number() -> u32 {
        memo::BWD
    }

    fn image_number() -> u32 {
        memo::PULL
    }

    fn in_order(a: u32, b: u32) -> (u32, u32) {
        (a, b)
    }
}
