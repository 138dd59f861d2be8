// A line's pixels by an error term for each axis.
ghost use Rattle.std.specs.Prelude.{◌≡◌, ◌≤◌};
ghost use Rattle.strokes.specs.Tracers.{On, Leaps, stepped_by, Traces};

use crate::lines::{Line, Ramp};

// One coordinate of a pixel. The error term grows at each pixel, and the coordinate steps up or down where it is full.
#[derive(Clone, Copy)]
pub(crate) struct Stepper {
    pub(crate) coordinate: usize,
    pub(crate) error: usize,
    pub(crate) growth: usize,
    pub(crate) up: usize,
    pub(crate) down: usize,
}

impl Ramp {
    // At the line's first pixel.
    fn stepper(self) -> Stepper
        ensures { On self.steps 0 self.from self.to result }
    {
        let up = usize::from(self.from <= self.to);
        Stepper {
            coordinate: self.from,
            error: self.steps - up,
            growth: 2 * self.from.abs_diff(self.to),
            up,
            down: 1 - up,
        }
    }
}

impl Stepper {
    // i pixels on, by one division.
    #[tactic(auto, unfolding(crate::specs::Tracers::stepped_by))]
    fn after(self, full: usize, i: usize) -> Stepper
        requires { Leaps full i self }
        ensures { result ≡ stepped_by full i self }
    {
        let error = self.error + i * self.growth;
        let steps = error / full;
        Stepper {
            coordinate: self.coordinate + self.up * steps - self.down * steps,
            error: error % full,
            ..self
        }
    }
}

// Both coordinates of a line's pixel; `full` is twice the line's steps.
#[derive(Clone, Copy)]
pub(crate) struct Tracer {
    pub(crate) x: Stepper,
    pub(crate) y: Stepper,
    pub(crate) full: usize,
}

impl Line {
    // At the line's pixel i.
    pub(crate) fn tracer_at(self, i: usize) -> Tracer
        requires { i ≤ self.steps }
        ensures { Traces self.from self.to i result }
    {
        let x = self.x().stepper();
        let y = self.y().stepper();
        let full = 2 * self.steps;
        if i == 0 {
            return Tracer { x, y, full };
        }
        Tracer {
            x: x.after(full, i),
            y: y.after(full, i),
            full,
        }
    }
}
