//! The page of the server.

/// The page: a box for a plan file, what it gives, and its picture. It loads nothing from elsewhere.
pub const PAGE: &str = r#"<!doctype html>
<html lang="en">
<meta charset="utf-8">
<meta name="viewport" content="width=device-width">
<title>Plans</title>
<link rel="icon" href="data:,">
<style>
body { font: 16px/1.4 sans-serif; max-width: 60em; margin: 2em auto; padding: 0 1em }
textarea, pre { box-sizing: border-box; width: 100%; font: 14px/1.4 monospace }
textarea { height: 14em }
pre { white-space: pre-wrap; overflow-wrap: anywhere; background: #f3f3f3; padding: .5em }
pre:empty { display: none }
img { max-width: 100% }
</style>
<h1>Plans</h1>
<p>A plan file, in JSON. The server's tables answer it. Each button serves it once.</p>
<textarea id="plan" spellcheck="false">{"version":2,"plans":[[{"eval":{"load":["user","u1"]}}]]}</textarea>
<p><button id="answer">Answers</button> <button id="draw">Picture</button></p>
<pre id="answers"></pre>
<img id="picture" alt="">
<script>
"use strict";
const part = id => document.getElementById(id);
const send = place => fetch(place, {method: "POST", headers: {"content-type": "application/json"}, body: part("plan").value});
const show = async (place, take) => {
  part("answers").textContent = "";
  URL.revokeObjectURL(part("picture").src);
  part("picture").removeAttribute("src");
  try {
    const reply = await send(place);
    if (reply.ok) await take(reply);
    else part("answers").textContent = reply.status + " " + reply.statusText + "\n" + await reply.text();
  } catch (error) { part("answers").textContent = String(error) }
};
part("answer").onclick = () => show("/", async reply => { part("answers").textContent = await reply.text() });
part("draw").onclick = () => show("/picture", async reply => { part("picture").src = URL.createObjectURL(await reply.blob()) });
</script>
</html>
"#;
