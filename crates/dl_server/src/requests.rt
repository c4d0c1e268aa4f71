//! Answers requests.

ghost use Rattle.std.specs.Prelude.{OnOk, codes};
ghost use Rattle.http_server.specs.Response.{IsBlank};
ghost use Rattle.dl_server.specs.Answers.{Answered, AnswersIt, AnswersPicture, AnswersPlans, IsLine, Says};

use crate::answer_json::report_json;
use crate::media::may_be_json;
use crate::page::PAGE;
use crate::places::{Asked, asked_for};
use crate::refusals::{refusal_json, run_status, scope_fault_json, script_json};
use crate::replies::{reply_json, reply_line, reply_no_method, reply_page, reply_picture};
use bytes::Bytes;
use dl_plans::{Options, RequestFault, draw_request, serve_request};
use http::{Request, StatusCode};
use http_server::Response;
use std::alloc::{AllocError, Global};
use std::hash::RandomState;
use std::sync::Wait;
use std::thread::Threads;

/// Answers requests, each alone: no request changes what another one gets.
#[derive(Drop)]
pub struct Requests<'r, T> {
    pub rt: &'r T,
    pub alloc: Global,
    /// Hashes keys, and nothing that you see depends on it.
    pub hashing: RandomState,
    /// Of these count the tables of the database, the number of workers, and what a plan's answers may take.
    pub options: &'r Options,
}

impl<'r, T: Threads + Wait + Sync> Requests<'r, T> {
    /// Fills a blank response to a request, by its method, its path, its `content-type` and its body, and by nothing else
    /// of it. The tables of a plan file answer it, and behind them those of the options' database.
    ///
    /// # Errors
    /// `AllocError` if memory runs out.
    ///
    /// # Examples
    /// The service of a connection answers so:
    ///
    /// ```rust
    /// self.requests.reply_to(request, response)
    /// ```
    pub fn reply_to(
        &self,
        request: &Request<Bytes>,
        response: &mut Response,
    ) -> Result<(), AllocError>
        requires { IsBlank response.old }
        ensures { OnOk result (AnswersIt self.now.options.now request.now response.new) }
    {
        let asked = asked_for(request.method().as_str(), request.uri().path());
        let is_json = may_be_json(request.headers());
        let bytes = request.body().as_slice();
        self.reply_as(asked, is_json, bytes, response)
    }

    /// Fills a response to a request that asks for this, with a body that may be JSON or not.
    fn reply_as(
        &self,
        asked: Asked,
        is_json: bool,
        bytes: &[u8],
        response: &mut Response,
    ) -> Result<(), AllocError>
        requires { IsBlank response.old }
        ensures { OnOk result (Answered self.now.options.now asked is_json bytes.now response.new) }
    {
        match asked {
            Asked::Page => reply_page(response, PAGE),
            Asked::Health => reply_line(response, StatusCode::OK, "ok\n"),
            Asked::Answers => {
                if is_json {
                    self.answer(bytes, response)
                } else {
                    refuse_type(response)
                }
            }
            Asked::Picture => {
                if is_json {
                    self.draw(bytes, response)
                } else {
                    refuse_type(response)
                }
            }
            Asked::NoPlace => reply_line(response, StatusCode::NOT_FOUND, "not found\n"),
            Asked::NoMethod(place) => reply_no_method(response, place),
        }
    }

    /// Fills a response with the answers to the plan file in these bytes.
    fn answer(&self, bytes: &[u8], response: &mut Response) -> Result<(), AllocError>
        requires { IsBlank response.old }
        ensures { OnOk result (AnswersPlans self.now.options.now bytes.now response.new) }
    {
        match serve_request(self.rt, self.alloc, self.hashing, bytes, self.options) {
            Ok(report) => {
                let text = report_json(self.alloc, &report)?;
                reply_json(response, StatusCode::OK, text)
            }
            Err(fault) => self.refuse(fault, response),
        }
    }

    /// Fills a response with the picture of the plan file in these bytes.
    fn draw(&self, bytes: &[u8], response: &mut Response) -> Result<(), AllocError>
        requires { IsBlank response.old }
        ensures { OnOk result (AnswersPicture self.now.options.now bytes.now response.new) }
    {
        match draw_request(self.rt, self.alloc, self.hashing, bytes, self.options) {
            Ok(picture) => reply_picture(response, picture),
            Err(fault) => self.refuse(fault, response),
        }
    }

    /// Fills a response that says why there is no report.
    ///
    /// # Errors
    /// `AllocError` if memory runs out, or ran out before.
    fn refuse(&self, fault: RequestFault, response: &mut Response) -> Result<(), AllocError>
        requires { IsBlank response.old }
        ensures { OnOk result (Says fault response.new) }
    {
        match fault {
            RequestFault::Refused(fault) => {
                let refusal = refusal_json(self.alloc, fault)?;
                reply_json(response, StatusCode::BAD_REQUEST, refusal)
            }
            RequestFault::Script => {
                let script = script_json(self.alloc)?;
                reply_json(response, StatusCode::UNPROCESSABLE_ENTITY, script)
            }
            RequestFault::Run(fault) => {
                let failure = scope_fault_json(self.alloc, fault)?;
                reply_json(response, run_status(fault), failure)
            }
            RequestFault::OutOfMemory => Err(AllocError),
        }
    }
}

/// Fills a response to a body that isn't said to be JSON.
fn refuse_type(response: &mut Response) -> Result<(), AllocError>
    requires { IsBlank response.old }
    ensures { OnOk result (IsLine 415 (codes "the body must be application/json\n") response.new) }
{
    reply_line(
        response,
        StatusCode::UNSUPPORTED_MEDIA_TYPE,
        "the body must be application/json\n",
    )
}
