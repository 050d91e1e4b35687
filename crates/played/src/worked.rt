// The worked runs as one table, which the definitions yield.
ghost use Rattle.played.specs.Worked.{WorkedRuns};

pub fn worked_runs()
    ensures { WorkedRuns }
{
    descriptor_vector::played_runs();
}
