// From how many writes and counts on a line matters.
ghost use Rattle.std.specs.Prelude.{◌≡◌, IsTrue};
ghost use Rattle.std.specs.Option.{SomeIff};
ghost use Rattle.base.specs.Levels.{are_levels};

use std::marker::Model;

/// The thresholds of tracking, prediction and report. Contracts see the three.
#[derive(Clone, Copy, PartialEq, Eq, Debug)]
pub struct Thresholds {
    tracking: u64,
    prediction: Option<u64>,
    report: u64,
}

impl Model for Thresholds {
    ghost use Rattle.std.specs.Prelude.{IsTrue};
    ghost use Rattle.base.specs.Levels.{Levels, are_levels};

    ghost Value = { Levels };

    ghost view = { λ t. record {
      tracking = t.tracking;
      prediction = t.prediction;
      report =
          t.report;
    } };

    ghost invariant = { λ t. IsTrue (are_levels t.tracking t.prediction t.report) };

    ghost inverse = { λ v. record {
      tracking = v.tracking;
      prediction = v.prediction;
      report = v.report;
    } };
}

impl Thresholds {
    /// The thresholds: None exactly where tracking is not from 1 to 2^32, or a prediction threshold
    /// is given that is not from tracking to 2^32, or report is not from 1 to 2^40.
    pub fn new(tracking: u64, prediction: Option<u64>, report: u64) -> Option<Thresholds>
        ensures { SomeIff result (IsTrue (are_levels tracking prediction report))
            (record { tracking = tracking; prediction = prediction; report = report }) }
    {
        let is_predicting = match prediction {
            Some(writes) => tracking <= writes && writes <= 1 << 32,
            None => true,
        };
        if tracking == 0
            || tracking > 1 << 32
            || !is_predicting
            || report == 0
            || report > 1 << 40
        {
            return None;
        }
        Some(Thresholds {
            tracking,
            prediction,
            report,
        })
    }

    /// From which write of a line on it is tracked, from 1 to 2^32.
    pub fn tracking(&self) -> u64
        ensures value { result ≡ self.now.tracking }
        ensures allowed { IsTrue
            (are_levels self.now.tracking self.now.prediction self.now.report) }
    {
        self.tracking
    }

    /// At each how many writes of a line its pairs are searched, up to 2^32; None where nothing is
    /// predicted.
    pub fn prediction(&self) -> Option<u64>
        ensures { result ≡ self.now.prediction }
    {
        self.prediction
    }

    /// From which count on a tracked line is listed, from 1 to 2^40.
    pub fn report(&self) -> u64
        ensures { result ≡ self.now.report }
    {
        self.report
    }
}
