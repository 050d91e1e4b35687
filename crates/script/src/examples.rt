// The forms of scripts by example.
ghost use Rattle.script.specs.Examples.{Examples};

pub fn examples_hold()
    ensures { Examples }
{}
